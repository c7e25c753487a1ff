// Event 2: a toll.
#![tactic(auto)]

ghost use Rattle.std.specs.Prelude.{◌≡◌, true, IfOk};
ghost use Rattle.rules.specs.Refusals.{answer_number};
ghost use Rattle.event_rates.specs.Classes.{class_number};
ghost use Rattle.rules.specs.Schedule.{class};
ghost use Rattle.records.specs.Outcomes.{number_by, answer_of};
ghost use Rattle.rules.specs.Tables.{book_of, sound_tables, three_tables};
ghost use Rattle.event_lookups.specs.Lookups.{LooksUp};
ghost use Rattle.posting.specs.Posts.{PostsAny};
ghost use Rattle.event_refusals.specs.Admissions.{Admitted};
ghost use Rattle.records.specs.Codes.{event_toll};
ghost use Rattle.event_toll.specs.Toll.{toll_row};
ghost use Rattle.lent.specs.Lent.{lent};

use event_ends::add_and_settle;
use event_lookups::Lookup;
use event_rates::{Class, class_of, rate_of};
use lent::Tables;
use posting::rows::new_row;
use records::codes::KIND_TOLL;
use records::layout::{HEADER_SCHEDULE, STAGE_PLACE};
use records::limits::LATEST_DAYS;
use records::refusals::Refusal;
use records::{Instruction, Posting, Row};
use tables::words::get;

// The class of the vehicle of an admitted event 2, or why the event is refused.
fn check_toll(t: Tables, e: Instruction, k: Lookup) -> Result<Class, Refusal>
    requires { (sound_tables (lent t) ≡ true)
        × (e.kind ≡ event_toll)
        × LooksUp (lent t) e k
        × Admitted (lent t) e }
    ensures number { number_by result ≡ answer_number (book_of (lent t.entry)) e }
    ensures class { IfOk result (λ k. class_number k ≡ class e.c e.d) }
{
    let today = t.day();
    let Some(class) = class_of(e.c, e.d) else {
        return Err(Refusal::Unclassed);
    };
    if (today < e.b) | (e.b + LATEST_DAYS < today) {
        return Err(Refusal::Misdated);
    }
    if k.duplicate {
        return Err(Refusal::Duplicate);
    }
    if !t.has_room(1) {
        return Err(Refusal::Full);
    }
    Ok(class)
}

// The row of a toll that is not refused: at the rate of its passage day, due a stage length from today.
fn toll_row(t: Tables, e: Instruction, vehicle: Class) -> Row
    requires { (sound_tables (lent t) ≡ true)
        × (e.kind ≡ event_toll)
        × (0 ≡ answer_number (book_of (lent t)) e)
        × (class_number vehicle ≡ class e.c e.d) }
    ensures { result ≡ toll_row (book_of (lent t.entry)) e }
{
    let today = t.day();
    let amount = rate_of(t.header, e.b, vehicle, e.e);
    Row {
        due: today + get(t.header, HEADER_SCHEDULE + STAGE_PLACE),
        reference: e.a,
        ..new_row(KIND_TOLL, e.account, today, amount)
    }
}

// Event 2: the toll's row; then settlement.
pub fn post_toll(
    header: &mut [i64],
    accounts: &[i64],
    journal: &mut [i64],
    e: Instruction,
    k: Lookup,
) -> Result<Posting, Refusal>
    requires { (sound_tables (three_tables header.old accounts.now journal.old) ≡ true)
        × (e.kind ≡ event_toll)
        × LooksUp (three_tables header.old accounts.now journal.old) e k
        × Admitted (three_tables header.old accounts.now journal.old) e }
    ensures { PostsAny (three_tables header.old accounts.now journal.old)
        (three_tables header.new accounts.now journal.new)
        e
        (answer_of result) }
{
    let t = Tables {
        header,
        accounts,
        journal,
    };
    let class = check_toll(t, e, k)?;
    let r = toll_row(t, e, class);
    Ok(add_and_settle(header, journal, r, k))
}
