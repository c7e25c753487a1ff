// The fee row of a toll that will rise.
ghost use Rattle.std.specs.Prelude.{◌≡◌, cond, ℕ, length};
ghost use Rattle.records.specs.Layout.{header_schedule};
ghost use Rattle.records.specs.Encoding.{row_at};
ghost use Rattle.rules.specs.Tick.{fee_row};
ghost use Rattle.rules.specs.Tables.{schedule_from};
ghost use Rattle.tables.specs.Changes.{RowIn};

use table_lists::Header;
use table_rows::{due_at, read_row};
use tick_base::stages::fee_due;

// Whether row i brings a fee row. Few rows are due today, so the due day is read first and alone.
pub fn brings_fee(header: Header, journal: &[i64], i: usize, today: u64) -> bool
    requires { RowIn journal.now i }
    ensures { (k : ℕ) → cond result 1 0 ≡ length
        (fee_row (schedule_from header.entry.words.now header_schedule) today k (row_at journal.now i)) }
{
    due_at(journal, i) == today && fee_due(header, read_row(journal, i), today) != 0
}
