// The rows whose hold ends, and those of each account that meet a test.
ghost use Rattle.std.specs.Prelude.{◌≡◌, ◌+◌, ◌<◌};
ghost use Rattle.records.specs.Encoding.{row_at};
ghost use Rattle.records.specs.Limits.{slot_count};
ghost use Rattle.rules.specs.Rows.{Test};
ghost use Rattle.rules.specs.Tick.{hold_ends};
ghost use Rattle.tables.specs.Changes.{RowIn};
ghost use Rattle.account_sums.specs.Tallies.{Tallied};
ghost use Rattle.tick_base.specs.Remainders.{counted, TestsHeld};

use super::days::hold_ends;
use super::rows::CountableRows;
use account_sums::{SLOTS, add, part};
use records::Row;
use records::codes::DISPUTE_HELD;
use table_rows::{dispute_at, read_row};

// Whether the hold of row i ends. Few rows are in dispute, so that is read first and alone, here and below.
pub fn ends_at(journal: &[i64], i: usize, today: u64) -> bool
    requires { RowIn journal.now i }
    ensures { result ≡ hold_ends today (row_at journal.now i) }
{
    dispute_at(journal, i) == DISPUTE_HELD && hold_ends(read_row(journal, i), today)
}

// Row i, where it is in dispute and meets the test, is counted at its account.
pub fn count_held<F: Fn(Row) -> bool>(
    countable: &CountableRows,
    i: usize,
    counts: &mut [u64; SLOTS],
    test: F,
)
    requires { (i < countable.now.rows.used)
        × (u : Test)
        × TestsHeld F.Fn test u
        × Tallied (counted u) slot_count countable.now.rows.journal.now counts.old i }
    ensures { (u : Test)
        → TestsHeld F.Fn test u
        → Tallied (counted u) slot_count countable.now.rows.journal.now counts.old i
        → Tallied (counted u) slot_count countable.now.rows.journal.now counts.new (i + 1) }
{
    if dispute_at(countable.rows.journal, i) != DISPUTE_HELD {
        return;
    }
    let r = read_row(countable.rows.journal, i);
    add(counts, r.account as usize, part(test(r), 1));
}
