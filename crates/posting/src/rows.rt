// A row added to the journal, and the count of used rows with it.
ghost use Rattle.std.specs.Prelude.{◌≡◌, ◌+◌, ◌-◌, ◌^◌, ◌≤◌, ◌<◌};
ghost use Rattle.records.specs.Encoding.{StorableRow};
ghost use Rattle.rules.specs.Rows.{new_row, with_reference};
ghost use Rattle.rules.specs.Events.{release};
ghost use Rattle.posting.specs.Posts.{RowRoom, RowAdded};

use records::Row;
use records::codes::DISPUTE_ENDED;
use records::layout::USED_PLACE;
use table_rows::write_row;
use tables::words::{get, put};

// A new row: unsettled, its other words 0.
pub fn new_row(kind: u64, account: u64, day: u64, amount: u64) -> Row
    ensures { result ≡ new_row kind account day amount }
{
    Row {
        kind,
        account,
        day,
        amount,
        ..Row::default()
    }
}

// A new row that names row n.
pub fn row_naming(kind: u64, account: u64, day: u64, amount: u64, n: u64) -> Row
    ensures { result ≡ with_reference n (new_row kind account day amount) }
{
    Row {
        reference: n,
        ..new_row(kind, account, day, amount)
    }
}

// The row after the last used one is r, and one row more is used.
// Kept: it takes the two tables that it writes, so that its callers need no clause that the accounts stay.
pub fn add_row(header: &mut [i64], journal: &mut [i64], r: Row)
    requires { RowRoom header.old journal.old × StorableRow r }
    ensures { RowAdded header.old header.new journal.old journal.new r }
{
    let used = get(header, USED_PLACE);
    write_row(journal, used as usize, r);
    put(header, USED_PLACE, used + 1);
}

// The row, its hold ended today: the due day moves by the days held.
pub fn released(r: Row, today: u64) -> Row
    requires { (r.hold ≤ today) × (r.due + (today - r.hold) < 2 ^ 63) }
    ensures { result ≡ release today r }
{
    Row {
        due: r.due + (today - r.hold),
        dispute: DISPUTE_ENDED,
        hold: 0,
        ..r
    }
}
