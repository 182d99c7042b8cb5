// A line is written whole or not at all.
ghost use Rattle.std.specs.Prelude.{◌≡◌, [], length, if◌then◌else◌, nat_le};
ghost use Rattle.std.specs.Result.{is_ok};
ghost use Rattle.writing.specs.Outputs.{room, Adds};

use super::{Full, Output};

impl Output<'_> {
    // Writes a whole line, or nothing where it does not fit.
    pub fn put(&mut self, line: &[u8]) -> Result<(), Full>
        ensures fits { is_ok result ≡ nat_le (length line.now) (room self.old) }
        ensures adds { Adds self.old self.new (if is_ok result then line.now else []) }
    {
        let from = self.len;
        let room = self.area.len() - from;
        if line.len() > room {
            return Err(Full);
        }
        let to = from + line.len();
        self.area[from..to].copy_from_slice(line);
        self.len = to;
        Ok(())
    }
}
