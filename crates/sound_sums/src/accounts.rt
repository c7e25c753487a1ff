// The accounts: each by itself, among the others, and against the sums of its rows.
ghost use Rattle.std.specs.Prelude.{◌≡◌, ◌+◌, ◌<◌};
ghost use Rattle.records.specs.Encoding.{account_at};
ghost use Rattle.records.specs.Limits.{most_rows};
ghost use Rattle.account_sums.specs.AccountSums.{AllLow};
ghost use Rattle.sound_journal.specs.Passing.{frame_accounts};
ghost use Rattle.sound_sums.specs.Accounts.{sums_agree, sums_at, account_passes, all_agree};

use account_sums::{SLOTS, Sums};
use plain_rows::accounts::plain_account;
use records::Account;
use records::codes::STATE_CLOSED;
use sound_accounts::{account_alone, successor_fits};
use sound_header::tests::implies;
use sound_journal::frame::Frame;

// Its returned checks; used sources = settled debits; no unused money beside a debt; nothing left where it is closed.
fn sums_agree(x: Account, s: Sums) -> bool
    ensures { result ≡ sums_agree x s }
{
    let spent = (s.money == 0) | (s.debt == 0);
    let clear = implies(x.state == STATE_CLOSED, (s.money == 0) & (s.owed == 0));
    (x.returned == s.returned) & (s.drawn == s.paid) & spent & clear
}

// Account i, counted from 0, whose number is i + 1. Its words are compared with small numbers alone, or looked up among the accounts, where
// a negative one finds none, so that they may be read as they are; its sums are read once it has passed the other tests, which leaves
// fewer words to hold at a time.
fn account_passes(f: &Frame, i: usize, sums: &[Sums; SLOTS]) -> bool
    requires { (i < f.now.count) × AllLow sums.now most_rows }
    ensures { result
        ≡ account_passes (frame_accounts f.now) f.now.term.today (i + 1) (sums_at sums.now (i + 1)) (account_at f.now.accounts.now i) }
{
    let x = plain_account(f.accounts, i);
    if !account_alone(f.term.today, x) {
        return false;
    }
    if !successor_fits(f.accounts, f.count, (i + 1) as u64, x) {
        return false;
    }
    sums_agree(x, sums[i + 1])
}

pub fn all_agree(f: &Frame, sums: &[Sums; SLOTS]) -> bool
    requires { AllLow sums.now most_rows }
    ensures { result ≡ all_agree f.now.term.today (sums_at sums.now) (frame_accounts f.now) }
{
    (0..f.count).all(|i| account_passes(f, i, sums))
}
