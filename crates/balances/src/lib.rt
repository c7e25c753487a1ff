// The sums of an account's sources and of its debits, its unused money, and whether its top-up is due.
#![tactic(auto)]

pub mod summable; // summable.rt: used rows whose amounts can be summed
pub mod debtor; // debtor.rt: whether an account is a heavy debtor

ghost use Rattle.std.specs.Prelude.{◌≡◌, true, ℕ, ◌^◌, ◌<◌};
ghost use Rattle.rules.specs.Rows.{Row};
ghost use Rattle.rules.specs.Settlement.{money};
ghost use Rattle.rules.specs.Book.{minus, topup_due};
ghost use Rattle.rules.specs.Tables.{book_of, sound_tables};
ghost use Rattle.table_rows.specs.UsedRows.{rows_in};
ghost use Rattle.posting.specs.Posts.{Measures};
ghost use Rattle.balances.specs.Summed.{Summed, account_sum, may_topup, is_low};
ghost use Rattle.lent.specs.Lent.{lent};

use self::summable::SummableRows;
use account_sums::part;
use lent::Tables;
use records::codes::STATE_OPEN;
use records::{Account, Row};
use row_tests::{is_debit, is_source, remaining_of};
use table_rows::{account_at, read_row};
use tables::words::minus;

// ---- sums

// An account's sums: of its sources, and of its debits, held ones included.
#[derive(Clone, Copy)]
pub struct Sums {
    pub sources: u64,
    pub debits: u64,
}

impl Sums {
    // The balance: the sources less the debits.
    pub fn balance(self) -> i64
        requires { (self.sources < 2 ^ 63) × (self.debits < 2 ^ 63) }
        ensures { result ≡ minus self.sources self.debits }
    {
        minus(self.sources, self.debits)
    }
}

// What `part` gives for the account's used rows, summed. Most rows are other accounts', so the account is read first and alone.
// Kept beside `event_decision::with_fees`, which begins with the toll itself and tests each row as a value.
fn sum_of_account<F: Fn(Row) -> u64>(summable: SummableRows, account: u64, part: F) -> u64
    requires { (f : Row → ℕ)
        × Measures F.Fn part f }
    ensures { (f : Row → ℕ) → Measures F.Fn part f → result ≡ account_sum (rows_in summable.entry.rows) account f }
{
    let rows = summable.rows;
    let mut sum = 0;
    for i in 0..rows.used {
        if account_at(rows.journal, i) == account {
            sum += part(read_row(rows.journal, i));
        }
    }
    sum
}

// The account's sums over the used rows, both in one pass.
pub fn sums_of(summable: SummableRows, account: u64) -> Sums
    ensures { Summed summable.entry.rows.journal.now account summable.entry.rows.used result }
{
    let rows = summable.rows;
    let mut sources = 0;
    let mut debits = 0;
    for i in 0..rows.used {
        if account_at(rows.journal, i) == account {
            let r = read_row(rows.journal, i);
            sources += part(is_source(r), r.amount);
            debits += part(is_debit(r), r.amount);
        }
    }
    Sums { sources, debits }
}

// The account's unused money over the used rows.
pub fn unused_money(summable: SummableRows, account: u64) -> u64
    ensures { result ≡ money account (rows_in summable.entry.rows) }
{
    sum_of_account(summable, account, |r| part(is_source(r), remaining_of(r)))
}

// ---- top-up due

// Open, amount above 0, last decline not today.
pub fn may_topup(x: Account, today: u64) -> bool
    ensures { result ≡ may_topup x today }
{
    (x.state == STATE_OPEN) & (0 < x.topup) & (x.declined != today)
}

// Unused money at most the threshold.
pub fn is_low(x: Account, money: u64) -> bool
    ensures { result ≡ is_low x money }
{
    money <= x.threshold
}

// Whether the account's top-up is due: on a sound book, whether its unused money is at most the threshold. It is summed only where it
// decides.
pub fn topup_due(t: Tables, n: u64) -> bool
    requires { sound_tables (lent t) ≡ true }
    ensures { result ≡ topup_due (book_of (lent t.entry)) n }
{
    let x = t.account(n);
    if !may_topup(x, t.day()) {
        return false;
    }
    let summable = SummableRows { rows: t.rows() };
    is_low(x, unused_money(summable, n))
}
