// An account of the accounts' table, read and written as a value.
#![tactic(auto)]

ghost use Rattle.std.specs.Prelude.{◌≡◌, ◌+◌, ◌*◌, ◌≤◌, length};
ghost use Rattle.records.specs.Layout.{account_width};
ghost use Rattle.records.specs.Encoding.{account_at, accounts_of, StorableAccount};
ghost use Rattle.rules.specs.Book.{account_no};
ghost use Rattle.rules.specs.Successors.{other_used};
ghost use Rattle.tables.specs.Changes.{AccountIn, AccountChanged};
ghost use Rattle.table_accounts.specs.Reads.{AccountBy};

use records::Account;
use records::codes::STATE_UNUSED;
use records::layout::{
    ACCOUNT_WIDTH, DECLINED_PLACE, DECLINES_PLACE, REQUEST_PLACE, RESERVE_PLACE, RETURNED_PLACE,
    STATE_PLACE, SUCCESSOR_PLACE, THRESHOLD_PLACE, TOPUP_PLACE,
};
use records::words::natural;
use tables::words::put_words;

// Account i, counted from 0, each word by `read`.
// Kept beside `table_rows`, whose functions on rows are alike: a trait would take from each a width, places and words, as these do.
pub fn account_by<F: Fn(i64) -> u64>(accounts: &[i64], i: usize, read: F) -> Account
    requires { AccountIn accounts.now i × F.IsAlwaysCallable read }
    ensures { AccountBy (F.post read) accounts.now (i * account_width) result }
{
    let p = i * ACCOUNT_WIDTH;
    Account {
        state: read(accounts[p + STATE_PLACE]),
        request: read(accounts[p + REQUEST_PLACE]),
        returned: read(accounts[p + RETURNED_PLACE]),
        threshold: read(accounts[p + THRESHOLD_PLACE]),
        topup: read(accounts[p + TOPUP_PLACE]),
        declines: read(accounts[p + DECLINES_PLACE]),
        declined: read(accounts[p + DECLINED_PLACE]),
        reserve: read(accounts[p + RESERVE_PLACE]),
        successor: read(accounts[p + SUCCESSOR_PLACE]),
    }
}

// Account i, counted from 0.
pub fn read_account(accounts: &[i64], i: usize) -> Account
    requires { AccountIn accounts.now i }
    ensures { result ≡ account_at accounts.now i }
{
    account_by(accounts, i, natural)
}

// Account number n of the table's, counted from 1; unused where there is none.
// Kept: the definitions' account is total too (Book.account_no): where there is none it is an unused one. And the accounts go beside their
// count: two callers have both, the lent tables and the frame of the check.
pub fn account_numbered(accounts: &[i64], count: usize, n: u64) -> Account
    requires { count * account_width ≤ length accounts.now }
    ensures { result ≡ account_no (accounts_of accounts.now count) n }
{
    if n == 0 {
        return Account::default();
    }
    if n > count as u64 {
        return Account::default();
    }
    read_account(accounts, (n - 1) as usize)
}

// Whether s is a used account other than account n: the number of such a one is what a successor of n may be.
pub fn other_used(accounts: &[i64], count: usize, n: u64, s: u64) -> bool
    requires { count * account_width ≤ length accounts.now }
    ensures { result ≡ other_used (accounts_of accounts.now count) n s }
{
    if s == n {
        return false;
    }
    account_numbered(accounts, count, s).state != STATE_UNUSED
}

// Account i becomes x, its words in the layout's order.
// Kept by index, an account's number less 1: a function by number would say no more at its five calls.
pub fn write_account(accounts: &mut [i64], i: usize, x: Account)
    requires { AccountIn accounts.old i × StorableAccount x }
    ensures { AccountChanged accounts.old accounts.new i x }
{
    let words = [
        x.state,
        x.request,
        x.returned,
        x.threshold,
        x.topup,
        x.declines,
        x.declined,
        x.reserve,
        x.successor,
    ];
    put_words(accounts, i * ACCOUNT_WIDTH, words);
}
