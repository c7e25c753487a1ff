// Marks on blocks of rows: a block without one has no toll that rises, so that tolls are raised without a look at each row.
ghost use Rattle.std.specs.Prelude.{◌+◌, ◌<◌};
ghost use Rattle.records.specs.Limits.{most_rows};
ghost use Rattle.tables.specs.Changes.{RowIn};
ghost use Rattle.tick_plan.specs.Marks.{Marked};

use table_rows::due_at;

// So many rows are a block, and so many blocks the most rows of a journal. Tolls that rise on a day were mostly passed on few days, and
// stand together.
pub const BLOCK_ROWS: usize = 64;

pub const BLOCKS: usize = 128;

// The block of row i, which is marked if the row is due today.
pub fn mark_due(journal: &[i64], i: usize, today: u64, marks: &mut [u64; BLOCKS])
    requires { RowIn journal.now i × (i < most_rows) × Marked today journal.now marks.old i }
    ensures { Marked today journal.now marks.new (i + 1) }
{
    if due_at(journal, i) == today {
        marks[i / BLOCK_ROWS] = 1;
    }
}
