// The fees of a toll: summed with it, and settled whole.
ghost use Rattle.std.specs.Prelude.{◌≡◌, ℕ, ◌^◌, ◌<◌};
ghost use Rattle.records.specs.Encoding.{row_at};
ghost use Rattle.rules.specs.Rows.{Row, fee_naming};
ghost use Rattle.tables.specs.Changes.{RowIn, RowChanged, RowsMapped};
ghost use Rattle.table_rows.specs.UsedRows.{rows_in};
ghost use Rattle.settlement.specs.Settling.{Journal};
ghost use Rattle.posting.specs.Posts.{Measures};
ghost use Rattle.event_decision.specs.Decision.{toll_and_fees, fee_settled};

use balances::summable::SummableRows;
use records::Row;
use records::codes::KIND_FEE;
use row_passes::change_rows;
use table_rows::{put_settled, read_row};

// A fee that names row n.
fn is_fee_of(r: Row, n: u64) -> bool
    ensures { result ≡ fee_naming n r }
{
    (r.kind == KIND_FEE) & (r.reference == n)
}

// What part gives for toll n and its fees, summed.
pub fn with_fees<F: Fn(Row) -> u64>(summable: SummableRows, n: u64, part: F) -> u64
    requires { (f : Row → ℕ)
        × Measures F.Fn part f }
    ensures { (f : Row → ℕ) → Measures F.Fn part f → result ≡ toll_and_fees (rows_in summable.entry.rows) n f }
{
    let rows = summable.rows;
    let mut sum = part(rows.numbered(n));
    for i in 0..rows.used {
        let r = read_row(rows.journal, i);
        if is_fee_of(r, n) {
            sum += part(r);
        }
    }
    sum
}

// Row i is settled whole if it is a fee of toll n.
fn settle_fee(journal: &mut [i64], i: usize, n: u64)
    requires { RowIn journal.old i × ((row_at journal.old i).amount < 2 ^ 63) }
    ensures { RowChanged journal.old journal.new i (fee_settled n (row_at journal.old i)) }
{
    let r = read_row(journal, i);
    if !is_fee_of(r, n) {
        return;
    }
    put_settled(journal, i, r.amount);
}

// The fees of toll n are settled whole.
pub fn settle_fees(journal: &mut [i64], used: usize, n: u64)
    requires { Journal journal.old used }
    ensures { RowsMapped (fee_settled n) journal.old journal.new used }
{
    change_rows(journal, used, |rows, i| settle_fee(rows, i, n));
}
