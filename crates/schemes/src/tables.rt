// The tables that lives are read from.
ghost use Rattle.std.specs.Prelude.{◌≡◌, ◌≤◌, true, false, [], ◌++◌, length, replicate, MatchResult, slice_index_or};
ghost use Rattle.refusals.specs.declared.Refusal.TheVariants.{Counts};
ghost use Rattle.lives.specs.Tables.{fairly};
ghost use Rattle.schemes.specs.Enrolment.{Leaves};
ghost use Rattle.schemes.specs.Most.{table_count, year_count};
ghost use Rattle.schemes.specs.Counts.{Sound, lists, appended};

use crate::fault::Fault;
use crate::reading::numbers;
use arrayvec::ArrayVec;
use lines::kind::Kind;
use lives::aggregate::fair;
use lives::life::YEARS;
use refusals::Refusal;
use std::array;

// How many tables there are.
const TABLES: usize = 4;

// The number of the last.
pub(crate) const LAST_TABLE: u32 = TABLES as u32 - 1;

// A table of counts, as lines fill it.
type Table = ArrayVec<u32, YEARS>;

#[derive(Drop)]
pub struct Tables {
    tables: [Table; TABLES],
    ghost whole: { length tables ≡ table_count },
    ghost sound: { Sound tables },
}

// Appends counts to a table, unless the table would make no life.
fn append(table: &mut Table, more: &[u32]) -> Result<(), Refusal>
    ensures { MatchResult result (λ _. (fairly (table.old.items ++ more.now) ≡ true) × (table.new.items ≡ table.old.items ++ more.now)) (λ e. (e ≡ Counts) × (fairly (table.old.items ++ more.now) ≡ false) × (table.new.items ≡ table.old.items)) }
{
    let len = table.len();
    table
        .try_extend_from_slice(more)
        .map_err(|_| Refusal::Counts)?;
    if !fair(table) {
        table.truncate(len);
        return Err(Refusal::Counts);
    }
    Ok(())
}

impl Tables {
    pub fn new() -> Tables
        ensures { lists result.tables ≡ replicate table_count [] }
    {
        Tables {
            tables: array::from_fn(|_| Table::new()),
        }
    }

    // The counts of a table, and none past the last table.
    pub(crate) fn at(&self, i: usize) -> &[u32]
        ensures list { result.now ≡ slice_index_or (lists self.now.tables) i [] }
        ensures short { length result.now ≤ year_count }
    {
        self.tables.get(i).map_or(&[], |table| table.as_slice())
    }

    // Appends the counts of a table's line.
    pub fn extend(&mut self, rest: &[u8]) -> Result<(), Fault>
        ensures { Leaves (appended rest.now (lists self.old.tables)) result (lists self.new.tables) (lists self.old.tables) }
    {
        let numbers = numbers(Kind::Table, rest)?;
        let [table, more @ ..] = numbers.as_slice() else {
            unreachable!()
        };
        append(&mut self.tables[*table as usize], more)?;
        Ok(())
    }
}
