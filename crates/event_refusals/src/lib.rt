// The refusals that are decided for every kind of event alike, 2, 15 and 3 to 5, once, before anything is looked up for the event.
#![tactic(auto)]

ghost use Rattle.std.specs.Prelude.{◌≡◌, true};
ghost use Rattle.lists.specs.Tests.{first};
ghost use Rattle.rules.specs.Book.{Book, account};
ghost use Rattle.records.specs.Outcomes.{number_by};
ghost use Rattle.rules.specs.Refusals.{list_refused, unknown, taken, on_closed, shared_refusals};
ghost use Rattle.rules.specs.Tables.{lists_in, sound_tables};
ghost use Rattle.event_refusals.specs.Admissions.{Read, Admits};
ghost use Rattle.lent.specs.Lent.{lent};

use event_forms::well_formed;
use lent::Tables;
use records::codes::{
    EVENT_CLOSE_REQUEST, EVENT_OPEN, EVENT_PAYMENT, EVENT_RATE_LIST, EVENT_RESERVE, EVENT_TICK,
    EVENT_TOLL, EVENT_TOPUP_RESULT, STATE_CLOSED, STATE_UNUSED,
};
use records::limits::MOST_LISTS;
use records::refusals::Refusal;
use records::{Account, Instruction};
use table_lists::Header;

// 15: event 10 with a first day not after the last list's, or with no place for another list.
fn list_refused(h: Header, e: Instruction) -> bool
    ensures { (b : Book) → b.lists ≡ lists_in h.entry.words.now → result ≡ list_refused b e }
{
    if e.kind != EVENT_RATE_LIST {
        return false;
    }
    let used = h.lists_used();
    (e.a <= h.last_day(used)) | (MOST_LISTS <= used + 1)
}

// 3: the account, x, is unused or not one of the table's; event 1 may name an unused one of the table's, and a tick and a rate list name
// none.
fn account_unknown(count: u64, e: Instruction, x: Account) -> bool
    ensures { (b : Book) → Read b e count x → result ≡ unknown b e }
{
    !((e.kind == EVENT_TICK) | (e.kind == EVENT_RATE_LIST))
        & (!((1 <= e.account) & (e.account <= count))
            | ((e.kind != EVENT_OPEN) & (x.state == STATE_UNUSED)))
}

// 4: event 1 names a used account.
fn account_taken(e: Instruction, x: Account) -> bool
    ensures { (b : Book) → x ≡ account b e.account → result ≡ taken b e }
{
    (e.kind == EVENT_OPEN) & (x.state != STATE_UNUSED)
}

// 5: the account is closed, for the events that a closed one does not take.
fn account_closed(e: Instruction, x: Account) -> bool
    ensures { (b : Book) → x ≡ account b e.account → result ≡ on_closed b e }
{
    ((e.kind == EVENT_TOLL)
        | (e.kind == EVENT_PAYMENT)
        | (e.kind == EVENT_TOPUP_RESULT)
        | (e.kind == EVENT_CLOSE_REQUEST)
        | (e.kind == EVENT_RESERVE))
        & (x.state == STATE_CLOSED)
}

// The first shared refusal that applies.
fn check_shared(late: bool, count: u64, e: Instruction, x: Account) -> Result<(), Refusal>
    ensures { (b : Book) → late ≡ list_refused b e → Read b e count x → number_by result ≡ first (shared_refusals b e) }
{
    let formed = well_formed(e);
    let unknown = account_unknown(count, e, x);
    let taken = account_taken(e, x);
    let closed = account_closed(e, x);
    if !formed {
        return Err(Refusal::Malformed);
    }
    if late {
        return Err(Refusal::List);
    }
    if unknown {
        return Err(Refusal::Unknown);
    }
    if taken {
        return Err(Refusal::Taken);
    }
    if closed {
        return Err(Refusal::Closed);
    }
    Ok(())
}

// The account that the event names, read once, or the shared refusal that applies to it.
pub fn admit(t: Tables, e: Instruction) -> Result<Account, Refusal>
    requires { sound_tables (lent t) ≡ true }
    ensures { Admits (lent t.entry) e result }
{
    let late = list_refused(Header { words: t.header }, e);
    let x = t.account(e.account);
    check_shared(late, t.count() as u64, e, x)?;
    Ok(x)
}
