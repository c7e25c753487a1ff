// Event 6: a decision.
#![tactic(auto)]

pub mod fees; // fees.rt: the fees of a toll, summed and settled

ghost use Rattle.std.specs.Prelude.{◌≡◌, true};
ghost use Rattle.rules.specs.Refusals.{answer_number};
ghost use Rattle.records.specs.Outcomes.{number_by, answer_of};
ghost use Rattle.rules.specs.Tables.{book_of, sound_tables, three_tables};
ghost use Rattle.table_rows.specs.UsedRows.{rows_in};
ghost use Rattle.event_lookups.specs.Lookups.{LooksUp};
ghost use Rattle.posting.specs.Posts.{PostsAny};
ghost use Rattle.event_refusals.specs.Admissions.{Admitted};
ghost use Rattle.event_decision.specs.Decision.{upheld_toll, credit_for, Upholdable, UpheldRows, Releasable, freed_row};
ghost use Rattle.records.specs.Codes.{event_decision};
ghost use Rattle.lent.specs.Lent.{lent};

use self::fees::{settle_fees, with_fees};
use balances::summable::SummableRows;
use event_ends::put_and_settle;
use event_lookups::Lookup;
use lent::Tables;
use posting::answers::posted;
use posting::rows::{add_row, released, row_naming};
use records::codes::{CODE_YES, DISPUTE_UPHELD, KIND_CREDIT, KIND_TOLL};
use records::layout::{DAY_PLACE, USED_PLACE};
use records::refusals::Refusal;
use records::{Instruction, Posting, Row};
use row_tests::{held_toll, is_of, remaining_of};
use settlement::settle_from;
use table_rows::{Rows, write_row};
use tables::words::get;

// Why an admitted event 6 is refused, if it is.
fn check_decision(t: Tables, e: Instruction) -> Result<(), Refusal>
    requires { (sound_tables (lent t) ≡ true)
        × (e.kind ≡ event_decision)
        × Admitted (lent t) e }
    ensures { number_by result ≡ answer_number (book_of (lent t.entry)) e }
{
    let r = t.rows().numbered(e.a);
    if !is_of(r, KIND_TOLL, e.account) {
        return Err(Refusal::NoRow);
    }
    if !held_toll(r) {
        return Err(Refusal::Untimely);
    }
    if (e.b == CODE_YES) & !t.has_room(1) {
        return Err(Refusal::Full);
    }
    Ok(())
}

// The credit of the toll and its fees; what is unsettled of these is used.
fn credit_for(summable: SummableRows, today: u64, e: Instruction) -> Row
    ensures { result ≡ credit_for (rows_in summable.entry.rows) today e }
{
    let whole = with_fees(summable, e.a, |r| r.amount);
    Row {
        settled: with_fees(summable, e.a, remaining_of),
        ..row_naming(KIND_CREDIT, e.account, today, whole, e.a)
    }
}

// The toll, its dispute upheld: free, and settled whole.
fn upheld(r: Row) -> Row
    ensures { result ≡ upheld_toll r }
{
    Row {
        settled: r.amount,
        dispute: DISPUTE_UPHELD,
        hold: 0,
        ..r
    }
}

// Verdict 1: a credit of the toll and its fees settles exactly these.
fn uphold(header: &mut [i64], journal: &mut [i64], e: Instruction)
    requires { Upholdable header.old journal.old e }
    ensures { UpheldRows header.old header.new journal.old journal.new e }
{
    let used = get(header, USED_PLACE) as usize;
    let rows = Rows { journal, used };
    let credit = credit_for(SummableRows { rows }, get(header, DAY_PLACE), e);
    let toll = upheld(rows.numbered(e.a));
    write_row(journal, (e.a - 1) as usize, toll);
    settle_fees(journal, used, e.a);
    add_row(header, journal, credit);
}

// Verdict 0: the toll that event 6 names, free again.
fn freed_row(t: Tables, e: Instruction) -> Row
    requires { Releasable t.header.now t.journal.now e }
    ensures { result ≡ freed_row t.entry.header.now t.entry.journal.now e }
{
    released(t.rows().numbered(e.a), t.day())
}

// Event 6: the dispute is decided; then settlement.
pub fn decide(
    header: &mut [i64],
    accounts: &[i64],
    journal: &mut [i64],
    e: Instruction,
    k: Lookup,
) -> Result<Posting, Refusal>
    requires { (sound_tables (three_tables header.old accounts.now journal.old) ≡ true)
        × (e.kind ≡ event_decision)
        × LooksUp (three_tables header.old accounts.now journal.old) e k
        × Admitted (three_tables header.old accounts.now journal.old) e }
    ensures { PostsAny (three_tables header.old accounts.now journal.old)
        (three_tables header.new accounts.now journal.new)
        e
        (answer_of result) }
{
    let t = Tables {
        header,
        accounts,
        journal,
    };
    check_decision(t, e)?;
    if e.b == CODE_YES {
        let used = t.used();
        uphold(header, journal, e);
        settle_from(journal, used as usize + 1, e.account, k.source, k.debit);
        return Ok(posted(used, 1, 0, false));
    }
    let free = freed_row(t, e);
    Ok(put_and_settle(header, accounts, journal, e, free, k))
}
