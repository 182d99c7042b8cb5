// Reads an expression by operator precedence, over two stacks in lent memory.
#![tactic(auto)]

ghost use Rattle.std.specs.Prelude.{◌<◌};
ghost use Rattle.stacks.specs.Items.{room};

mod answers;
mod cut;
mod ends;
mod groups;
pub mod lists;
mod reads;
mod spends;
mod steps;
mod wrong;

pub use reads::{ReadFault, read};
use stacks::Stack;

// The most tokens of an expression, and the places of each list that reading works in.
pub const MOST_TOKENS: usize = 64;

// A word that waits for an operand to its right.
#[derive(Clone, Copy, PartialEq, Eq, Default)]
pub enum Word {
    // The default is only a blank.
    #[default]
    Or,
    And,
    Not,
    Open,
}

// A waiting word, and the place of its first byte in the text.
#[derive(Clone, Copy, Default)]
pub struct Pending {
    pub word: Word,
    pub place: usize,
}

// What a group asks of the seats that it lists.
#[derive(Clone, Copy)]
pub enum Group {
    Joint,
    Last,
    Exactly(u8),
    AtLeast(u8),
}

// The words that a digit follows.
#[derive(Clone, Copy)]
pub enum Count {
    Exact,
    Least,
}

// What is expected next.
#[derive(Clone, Copy)]
pub enum Expect {
    Operand,
    Operator,
    Digit(Count),
    Square(Group),
    Letters(Group),
    Closing(Group, u8),
}

// The words that wait, the answers of what is complete, what comes next, and the seats named so far.
#[derive(Drop)]
pub struct Reader<'a> {
    pending: Stack<'a, Pending>,
    answers: Stack<'a, u16>,
    expect: Expect,
    named: u8,
    ghost roomy: { 0 < room answers },
}

// What an expression says.
#[derive(Clone, Copy)]
pub struct Reading {
    // The yes or no in each pattern of the lives alive: a bit for each, by the pattern's number.
    pub answers: u16,
    // The set of named seats, as a pattern's number.
    pub named: u8,
}
