// Whether an account is a heavy debtor, told by as many of the first rows as decide it.
ghost use Rattle.std.specs.Prelude.{◌≡◌, not, ◌&&◌, ◌||◌, ◌<◌};
ghost use Rattle.lists.specs.Tests.{◌is◌};
ghost use Rattle.lists.specs.Lists.{only, least};
ghost use Rattle.records.specs.Encoding.{row_at};
ghost use Rattle.rules.specs.Rows.{kind_fee, toll, held, remaining};
ghost use Rattle.rules.specs.Debtors.{counted_debt, heavy_by};
ghost use Rattle.table_rows.specs.UsedRows.{rows_in};

use super::summable::SummableRows;
use account_sums::part;
use records::Row;
use records::codes::{KIND_FEE, KIND_TOLL};
use records::limits::HEAVY_DEBT;
use row_tests::{is_held, remaining_of};
use table_rows::{Rows, account_at, read_row};

// Yes or no, and how many of the first rows were read; there are few enough for a short number, which any word holds.
#[derive(Clone, Copy)]
pub struct Debtor {
    pub heavy: bool,
    pub rows: u32,
}

// An unheld toll or fee.
fn is_counted(rows: &Rows, r: Row) -> bool
    ensures { result ≡ (toll r || r.kind is kind_fee) && not (held (rows_in rows.now) r) }
{
    if is_held(rows, r) {
        return false;
    }
    (r.kind == KIND_TOLL) | (r.kind == KIND_FEE)
}

// What row i counts of the account's debt. Most rows are other accounts', so the account is read first and alone.
fn counted_debt(rows: &Rows, i: usize, account: u64) -> u64
    requires { i < rows.now.used }
    ensures { result ≡ only (counted_debt (rows_in rows.now) account) remaining (row_at rows.now.journal.now i) }
{
    if account_at(rows.journal, i) != account {
        return 0;
    }
    let r = read_row(rows.journal, i);
    part(is_counted(rows, r), remaining_of(r))
}

// The rows in their order, until what they count exceeds the limit.
pub fn judge_debtor(summable: SummableRows, account: u64) -> Debtor
    ensures heavy { result.heavy
        ≡ heavy_by (rows_in summable.entry.rows) account summable.entry.rows.used }
    ensures rows { result.rows
        ≡ least (heavy_by (rows_in summable.entry.rows) account) summable.entry.rows.used }
{
    let rows = summable.rows;
    let mut debt = 0;
    for i in 0..rows.used {
        debt += counted_debt(&rows, i, account);
        if HEAVY_DEBT < debt {
            return Debtor {
                heavy: true,
                rows: (i + 1) as u32,
            };
        }
    }
    Debtor {
        heavy: false,
        rows: rows.used as u32,
    }
}
