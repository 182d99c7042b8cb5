// The lines that are printed.
ghost use Rattle.std.specs.Prelude.{◌≡◌, [], length, if◌then◌else◌, nat_le};
ghost use Rattle.std.specs.Result.{is_ok};
ghost use Rattle.writing.specs.Printed.{printed};
ghost use Rattle.writing.specs.Outputs.{room, Adds};
ghost use Rattle.runs.specs.Run.{spoken, blamed};

use annuities::valuation::Valuation;
use schemes::fault::LineFault;
use writing::output::{Full, Output};
use writing::text::Text;

// Prints a line, if it fits.
fn say(output: &mut Output, kind: u8, a: u64, b: u64, c: u64) -> Result<(), Full>
    ensures fits { is_ok result ≡ nat_le (length (printed kind a b c)) (room output.old) }
    ensures adds { Adds output.old output.new (if is_ok result then printed kind a b c else []) }
{
    let text = Text::line(kind, a, b, c);
    output.put(text.bytes())
}

// Prints what a line says, if it says something and that fits.
pub(crate) fn speak(output: &mut Output, line: usize, said: Option<Valuation>) -> Result<(), Full>
    ensures fits { is_ok result ≡ nat_le (length (spoken said line)) (room output.old) }
    ensures adds { Adds output.old output.new (if is_ok result then spoken said line else []) }
{
    match said {
        Some(v) => say(output, b'V', line as u64, v.factor, v.value),
        None => Ok(()),
    }
}

// Prints a refusal, if it fits.
pub(crate) fn blame(output: &mut Output, at: LineFault) -> Result<(), Full>
    ensures fits { is_ok result ≡ nat_le (length (blamed at)) (room output.old) }
    ensures adds { Adds output.old output.new (if is_ok result then blamed at else []) }
{
    let place = at.fault.place() as u64;
    let code = u64::from(at.fault.refusal().code());
    say(output, b'!', at.line as u64, place, code)
}
