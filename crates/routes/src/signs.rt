// The signs of the differences of sets, as a table.
ghost use Rattle.std.specs.Prelude.{◌≡◌, ◌<◌};
ghost use Rattle.patterns.specs.Seats.{seats, patterns};
ghost use Rattle.patterns.specs.Patterns.{flags};
ghost use Rattle.weights.specs.Differences.{sign};

use patterns::PATTERNS;

// The signs of one set: of each pattern, 0 where it is not within the set.
struct Row {
    signs: [i8; PATTERNS],
}

static SIGNS: [Row; PATTERNS] = [
    Row {
        signs: [1, 0, 0, 0, 0, 0, 0, 0, 0, 0, 0, 0, 0, 0, 0, 0],
    },
    Row {
        signs: [-1, 1, 0, 0, 0, 0, 0, 0, 0, 0, 0, 0, 0, 0, 0, 0],
    },
    Row {
        signs: [-1, 0, 1, 0, 0, 0, 0, 0, 0, 0, 0, 0, 0, 0, 0, 0],
    },
    Row {
        signs: [1, -1, -1, 1, 0, 0, 0, 0, 0, 0, 0, 0, 0, 0, 0, 0],
    },
    Row {
        signs: [-1, 0, 0, 0, 1, 0, 0, 0, 0, 0, 0, 0, 0, 0, 0, 0],
    },
    Row {
        signs: [1, -1, 0, 0, -1, 1, 0, 0, 0, 0, 0, 0, 0, 0, 0, 0],
    },
    Row {
        signs: [1, 0, -1, 0, -1, 0, 1, 0, 0, 0, 0, 0, 0, 0, 0, 0],
    },
    Row {
        signs: [-1, 1, 1, -1, 1, -1, -1, 1, 0, 0, 0, 0, 0, 0, 0, 0],
    },
    Row {
        signs: [-1, 0, 0, 0, 0, 0, 0, 0, 1, 0, 0, 0, 0, 0, 0, 0],
    },
    Row {
        signs: [1, -1, 0, 0, 0, 0, 0, 0, -1, 1, 0, 0, 0, 0, 0, 0],
    },
    Row {
        signs: [1, 0, -1, 0, 0, 0, 0, 0, -1, 0, 1, 0, 0, 0, 0, 0],
    },
    Row {
        signs: [-1, 1, 1, -1, 0, 0, 0, 0, 1, -1, -1, 1, 0, 0, 0, 0],
    },
    Row {
        signs: [1, 0, 0, 0, -1, 0, 0, 0, -1, 0, 0, 0, 1, 0, 0, 0],
    },
    Row {
        signs: [-1, 1, 0, 0, 1, -1, 0, 0, 1, -1, 0, 0, -1, 1, 0, 0],
    },
    Row {
        signs: [-1, 0, 1, 0, 1, 0, -1, 0, 1, 0, -1, 0, -1, 0, 1, 0],
    },
    Row {
        signs: [1, -1, -1, 1, -1, 1, 1, -1, -1, 1, 1, -1, 1, -1, -1, 1],
    },
];

// The sign of a pattern in the difference of a set.
pub(crate) fn sign_of(set: usize, pattern: usize) -> i8
    requires { (set < patterns) × (pattern < patterns) }
    ensures { result ≡ sign (flags seats set) (flags seats pattern) }
{
    SIGNS[set].signs[pattern]
}
