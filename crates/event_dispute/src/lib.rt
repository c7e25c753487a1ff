// Event 5: a dispute.
#![tactic(auto)]

ghost use Rattle.std.specs.Prelude.{◌≡◌, true};
ghost use Rattle.rules.specs.Book.{row};
ghost use Rattle.rules.specs.Events.{hold_from};
ghost use Rattle.rules.specs.Refusals.{answer_number};
ghost use Rattle.records.specs.Outcomes.{number_by, answer_of};
ghost use Rattle.rules.specs.Tables.{book_of, sound_tables, three_tables};
ghost use Rattle.event_lookups.specs.Lookups.{LooksUp};
ghost use Rattle.posting.specs.Posts.{PostsAny};
ghost use Rattle.event_refusals.specs.Admissions.{Admitted};
ghost use Rattle.records.specs.Codes.{event_dispute};
ghost use Rattle.lent.specs.Lent.{lent};

use event_ends::put_and_settle;
use event_lookups::Lookup;
use lent::Tables;
use records::codes::{DISPUTE_HELD, DISPUTE_NEVER, KIND_TOLL};
use records::refusals::Refusal;
use records::{Instruction, Posting, Row};
use row_tests::is_of;

// Why an admitted event 5 is refused, if it is.
fn check_dispute(t: Tables, e: Instruction) -> Result<(), Refusal>
    requires { (sound_tables (lent t) ≡ true)
        × (e.kind ≡ event_dispute)
        × Admitted (lent t) e }
    ensures { number_by result ≡ answer_number (book_of (lent t.entry)) e }
{
    let r = t.rows().numbered(e.a);
    if !is_of(r, KIND_TOLL, e.account) {
        return Err(Refusal::NoRow);
    }
    if !(r.settled < r.amount) | (r.dispute != DISPUTE_NEVER) {
        return Err(Refusal::Untimely);
    }
    Ok(())
}

// The row, held from today on.
fn held_from(r: Row, today: u64) -> Row
    ensures { result ≡ hold_from today r }
{
    Row {
        dispute: DISPUTE_HELD,
        hold: today,
        ..r
    }
}

// The toll that event 5 names, held from today on.
fn held_row(t: Tables, e: Instruction) -> Row
    requires { sound_tables (lent t) ≡ true }
    ensures { result ≡ hold_from (book_of (lent t.entry)).day (row (book_of (lent t.entry)) e.a) }
{
    held_from(t.rows().numbered(e.a), t.day())
}

// Event 5: the toll is held; then settlement.
pub fn hold_toll(
    header: &[i64],
    accounts: &[i64],
    journal: &mut [i64],
    e: Instruction,
    k: Lookup,
) -> Result<Posting, Refusal>
    requires { (sound_tables (three_tables header.now accounts.now journal.old) ≡ true)
        × (e.kind ≡ event_dispute)
        × LooksUp (three_tables header.now accounts.now journal.old) e k
        × Admitted (three_tables header.now accounts.now journal.old) e }
    ensures { PostsAny (three_tables header.now accounts.now journal.old)
        (three_tables header.now accounts.now journal.new)
        e
        (answer_of result) }
{
    let t = Tables {
        header,
        accounts,
        journal,
    };
    check_dispute(t, e)?;
    let held = held_row(t, e);
    Ok(put_and_settle(header, accounts, journal, e, held, k))
}
