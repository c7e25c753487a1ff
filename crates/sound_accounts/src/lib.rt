// The clauses of soundness on an account by itself and among the others. Each test returns at once, as those on rows do.
#![tactic(auto)]

ghost use Rattle.std.specs.Prelude.{◌≡◌, ◌*◌, ◌≤◌, length};
ghost use Rattle.records.specs.Layout.{account_width};
ghost use Rattle.records.specs.Encoding.{accounts_of};
ghost use Rattle.rules.specs.Soundness.{state_fits, unused_zero, request_fits, topup_fits, decline_fits, successor_fits};
ghost use Rattle.sound_accounts.specs.Alone.{account_alone};

use records::Account;
use records::codes::{CODE_YES, STATE_CLOSED, STATE_OPEN, STATE_PENDING, STATE_UNUSED};
use records::limits::{HIGHEST_TOPUP, MOST_DECLINES};
use sound_header::tests::{between, implies};
use table_accounts::other_used;

fn state_fits(x: Account) -> bool
    ensures { result ≡ state_fits x }
{
    x.state <= STATE_CLOSED
}

fn unused_zero(x: Account) -> bool
    ensures { result ≡ unused_zero x }
{
    if x.state != STATE_UNUSED {
        return true;
    }
    x == Account::default()
}

fn request_fits(today: u64, x: Account) -> bool
    ensures { result ≡ request_fits today x }
{
    if x.state == STATE_OPEN {
        return x.request == 0;
    }
    if x.state < STATE_PENDING {
        return true;
    }
    between(1, x.request, today)
}

fn topup_fits(x: Account) -> bool
    ensures { result ≡ topup_fits x }
{
    let within = (x.threshold <= HIGHEST_TOPUP)
        & (x.topup <= HIGHEST_TOPUP)
        & (x.declines <= MOST_DECLINES);
    let together = within
        & implies(x.declines == 0, x.declined == 0)
        & implies(x.declined == 0, x.declines == 0)
        & (x.reserve <= CODE_YES);
    let all_zero = (x.threshold == 0) & (x.declines == 0) & (x.reserve == 0);
    together & implies(x.topup == 0, all_zero)
}

fn decline_fits(today: u64, x: Account) -> bool
    ensures { result ≡ decline_fits today x }
{
    x.declined <= today
}

// All that an account is tested for by itself.
pub fn account_alone(today: u64, x: Account) -> bool
    ensures { result ≡ account_alone today x }
{
    if !state_fits(x) {
        return false;
    }
    if !unused_zero(x) {
        return false;
    }
    if !request_fits(today, x) {
        return false;
    }
    if !topup_fits(x) {
        return false;
    }
    decline_fits(today, x)
}

// Account number n, x, among the others: no other is read where it has no successor, as most have none.
pub fn successor_fits(accounts: &[i64], count: usize, n: u64, x: Account) -> bool
    requires { count * account_width ≤ length accounts.now }
    ensures { result ≡ successor_fits (accounts_of accounts.now count) n x }
{
    if x.successor == 0 {
        return true;
    }
    other_used(accounts, count, n, x.successor)
}
