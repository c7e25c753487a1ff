// Events 1, 8, 11 and 12, which change an account alone.
#![tactic(auto)]

ghost use Rattle.std.specs.Prelude.{◌≡◌, true, Ok};
ghost use Rattle.records.specs.Outcomes.{answer_of, number_by};
ghost use Rattle.lists.specs.Tests.{first};
ghost use Rattle.rules.specs.Book.{Book, account};
ghost use Rattle.rules.specs.Tables.{book_of, sound_tables, three_tables};
ghost use Rattle.posting.specs.Posts.{PostsAny};
ghost use Rattle.event_refusals.specs.Admissions.{Admitted, Names};
ghost use Rattle.records.specs.Codes.{event_open, event_close_request, event_reserve, event_successor};
ghost use Rattle.event_accounts.specs.AccountEvents.{reserve_refusals, successor_refusals};
ghost use Rattle.lent.specs.Lent.{lent};

use event_ends::put_account;
use lent::Tables;
use records::codes::{STATE_CLOSED, STATE_PENDING};
use records::refusals::Refusal;
use records::{Account, Instruction, Posting};
use table_accounts::other_used;

// Event 1: the account is opened. Admitted, it is not refused.
pub fn open_account(
    header: &[i64],
    accounts: &mut [i64],
    journal: &[i64],
    e: Instruction,
) -> Posting
    requires { (sound_tables (three_tables header.now accounts.old journal.now) ≡ true)
        × (e.kind ≡ event_open)
        × Admitted (three_tables header.now accounts.old journal.now) e }
    ensures { PostsAny (three_tables header.now accounts.old journal.now)
        (three_tables header.now accounts.new journal.now)
        e
        (answer_of (Ok result)) }
{
    put_account(header, accounts, journal, e, Account::open(e.a, e.b), false)
}

// Event 8: the account is pending from today.
pub fn request_close(
    header: &[i64],
    accounts: &mut [i64],
    journal: &[i64],
    e: Instruction,
    x: Account,
) -> Result<Posting, Refusal>
    requires { (sound_tables (three_tables header.now accounts.old journal.now) ≡ true)
        × (e.kind ≡ event_close_request)
        × Admitted (three_tables header.now accounts.old journal.now) e
        × Names (three_tables header.now accounts.old journal.now) e x }
    ensures { PostsAny (three_tables header.now accounts.old journal.now)
        (three_tables header.now accounts.new journal.now)
        e
        (answer_of result) }
{
    if x.state == STATE_PENDING {
        return Err(Refusal::Untimely);
    }
    let t = Tables {
        header,
        accounts,
        journal,
    };
    let pending = x.request_close(t.day());
    Ok(put_account(header, accounts, journal, e, pending, false))
}

// 11: the account has no primary; 16: the reserve to add is there already, or there is none to remove.
fn check_reserve(e: Instruction, x: Account) -> Result<(), Refusal>
    ensures { (b : Book) → x ≡ account b e.account → number_by result ≡ first (reserve_refusals b e) }
{
    if x.topup == 0 {
        return Err(Refusal::Untimely);
    }
    if x.reserve == e.a {
        return Err(Refusal::Reserve);
    }
    Ok(())
}

// Event 11: the reserve is added or removed.
pub fn set_reserve(
    header: &[i64],
    accounts: &mut [i64],
    journal: &[i64],
    e: Instruction,
    x: Account,
) -> Result<Posting, Refusal>
    requires { (sound_tables (three_tables header.now accounts.old journal.now) ≡ true)
        × (e.kind ≡ event_reserve)
        × Admitted (three_tables header.now accounts.old journal.now) e
        × Names (three_tables header.now accounts.old journal.now) e x }
    ensures { PostsAny (three_tables header.now accounts.old journal.now)
        (three_tables header.now accounts.new journal.now)
        e
        (answer_of result) }
{
    check_reserve(e, x)?;
    let reserved = x.set_reserve(e.a);
    Ok(put_account(header, accounts, journal, e, reserved, false))
}

// 18: the account is not closed, or the successor would be itself, unused or outside the table.
fn check_successor(t: Tables, e: Instruction, x: Account) -> Result<(), Refusal>
    requires { Names (lent t) e x }
    ensures { number_by result ≡ first (successor_refusals (book_of (lent t.entry)) e) }
{
    let nameable = (x.state == STATE_CLOSED) & other_used(t.accounts, t.count(), e.account, e.a);
    if !nameable {
        return Err(Refusal::Successor);
    }
    Ok(())
}

// Event 12: the successor is named, in the place of one named before.
pub fn set_successor(
    header: &[i64],
    accounts: &mut [i64],
    journal: &[i64],
    e: Instruction,
    x: Account,
) -> Result<Posting, Refusal>
    requires { (sound_tables (three_tables header.now accounts.old journal.now) ≡ true)
        × (e.kind ≡ event_successor)
        × Admitted (three_tables header.now accounts.old journal.now) e
        × Names (three_tables header.now accounts.old journal.now) e x }
    ensures { PostsAny (three_tables header.now accounts.old journal.now)
        (three_tables header.now accounts.new journal.now)
        e
        (answer_of result) }
{
    let t = Tables {
        header,
        accounts,
        journal,
    };
    check_successor(t, e, x)?;
    let named = x.set_successor(e.a);
    Ok(put_account(header, accounts, journal, e, named, false))
}
