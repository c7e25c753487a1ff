// The clauses of soundness on each row of the journal: its own, its account, its reference; and the rows past the used ones.
#![tactic(auto)]

pub mod marks; // marks.rt: which accounts are used
pub mod frame; // frame.rt: the tables' used rows and accounts, and what is tested of a row

ghost use Rattle.std.specs.Prelude.{◌≡◌, ◌*◌, ◌≤◌, length};
ghost use Rattle.records.specs.Layout.{row_width};
ghost use Rattle.records.specs.Encoding.{row_at};
ghost use Rattle.sound_header.specs.Clauses.{empty_row, rest_zero};
ghost use Rattle.tables.specs.Changes.{RowIn};

use plain_rows::plain_row;
use records::Row;

fn row_empty(journal: &[i64], i: usize) -> bool
    requires { RowIn journal.now i }
    ensures { result ≡ empty_row (row_at journal.now i) }
{
    plain_row(journal, i) == Row::default()
}

// The rows past the used ones: ten words at a time.
pub fn later_rows_zero(journal: &[i64], used: usize, room: usize) -> bool
    requires { (length journal.now ≡ room * row_width) × (used ≤ room) }
    ensures { result ≡ rest_zero journal.now used }
{
    (used..room).all(|i| row_empty(journal, i))
}
