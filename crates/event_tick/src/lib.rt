// Event 9, the day tick: it refuses before it writes anything.
#![tactic(auto)]

ghost use Rattle.std.specs.Prelude.{◌≡◌, true, List, ℤ, Ok};
ghost use Rattle.records.specs.Outcomes.{answer_of};
ghost use Rattle.rules.specs.Tick.{close_accounts};
ghost use Rattle.rules.specs.Tables.{tables_with, book_of, sound_tables};
ghost use Rattle.posting.specs.Posts.{Posts};
ghost use Rattle.posting.specs.Written.{Written};
ghost use Rattle.event_refusals.specs.Admissions.{Admitted};
ghost use Rattle.tick_plan.specs.Plans.{PlansHolds, TablesCounted};
ghost use Rattle.tick_holds.specs.Holds.{UnraisedRows};
ghost use Rattle.event_tick.specs.TickEvent.{Judges, Accepts, Closes};
ghost use Rattle.records.specs.Codes.{event_tick};
ghost use Rattle.lent.specs.Lent.{lent_mut, SameTables};

use lent::TablesMut;
use posting::answers::posted;
use records::layout::DAY_PLACE;
use records::limits::FINAL_DAY;
use records::refusals::Refusal;
use records::{Instruction, Posting};
use tables::words::put;
use tick_close::close_accounts;
use tick_holds::free_and_settle;
use tick_plan::rows::RowCounts;
use tick_plan::{Plan, count_rows_to, plan_tick};
use tick_raise::raise_tolls;

// The plan of an admitted event 9, or why it is refused. The tests in checking order. 14 never is the reason: 8,192 sources of at most
// 1,300,000 each do not pass the ceiling.
fn judge_tick(
    t: &TablesMut,
    holidays: &[i64],
    e: Instruction,
    counts: &RowCounts,
) -> Result<Plan, Refusal>
    requires { (sound_tables (tables_with holidays.now (lent_mut t.now)) ≡ true)
        × (e.kind ≡ event_tick)
        × Admitted (lent_mut t.now) e
        × TablesCounted (lent_mut t.now) counts.now }
    ensures { Judges (book_of (tables_with holidays.now (lent_mut t.now))) e result }
{
    if t.day() == FINAL_DAY {
        return Err(Refusal::LastDay);
    }
    let plan = plan_tick(t.read(), holidays, counts);
    if !t.has_room(plan.added) {
        return Err(Refusal::Full);
    }
    Ok(plan)
}

// Holds end and their accounts are settled, where the plan has a hold that ends. On most days none does, and nothing changes.
fn end_holds(t: &mut TablesMut, plan: Plan, counts: &RowCounts)
    requires { (sound_tables (lent_mut t.old) ≡ true)
        × PlansHolds (book_of (lent_mut t.old)) plan
        × TablesCounted (lent_mut t.old) counts.now }
    ensures same { SameTables t.old t.new }
    ensures header { t.new.header.now ≡ t.old.header.now }
    ensures accounts { t.new.accounts.now ≡ t.old.accounts.now }
    ensures rows { UnraisedRows (lent_mut t.old) t.new.journal.now }
{
    if plan.ending {
        free_and_settle(
            &mut *t.header,
            &mut *t.accounts,
            &mut *t.journal,
            &counts.ends,
            &counts.remains.money,
        );
    }
}

// Accounts close, where the plan has one that does. On most days none does, and nothing changes.
fn close_due(t: &mut TablesMut, plan: Plan)
    requires { (hs : List ℤ) × Closes (tables_with hs (lent_mut t.old)) plan }
    ensures same { SameTables t.old t.new }
    ensures written { (hs : List ℤ)
        → Closes (tables_with hs (lent_mut t.old)) plan
        → Written (tables_with hs (lent_mut t.old))
        (tables_with hs (lent_mut t.new))
        (close_accounts (book_of (tables_with hs (lent_mut t.old)))) }
{
    if plan.closing {
        close_accounts(t);
    }
}

// A tick as planned: holds end, settlement, the day rises, tolls rise, accounts close. Whatever the holidays, the plan has read them.
fn carry_out(t: &mut TablesMut, e: Instruction, plan: Plan, counts: &RowCounts) -> Posting
    requires { (hs : List ℤ)
        × Accepts (tables_with hs (lent_mut t.old)) e plan
        × TablesCounted (lent_mut t.old) counts.now }
    ensures same { SameTables t.old t.new }
    ensures posts { (hs : List ℤ)
        → Accepts (tables_with hs (lent_mut t.old)) e plan
        → Posts (tables_with hs (lent_mut t.old)) (tables_with hs (lent_mut t.new)) e (answer_of (Ok result)) }
{
    let used = t.used();
    end_holds(t, plan, counts);
    let today = t.day();
    put(t.header, DAY_PLACE, today + 1);
    let raised = raise_tolls(
        &mut *t.header,
        &mut *t.accounts,
        &mut *t.journal,
        &counts.marks,
    );
    close_due(t, plan);
    posted(used, t.used() - used, raised, false)
}

// Event 9, the day tick.
pub fn tick(t: &mut TablesMut, holidays: &[i64], e: Instruction) -> Result<Posting, Refusal>
    requires { (sound_tables (tables_with holidays.now (lent_mut t.old)) ≡ true)
        × (e.kind ≡ event_tick)
        × Admitted (lent_mut t.old) e }
    ensures same { SameTables t.old t.new }
    ensures posts { Posts (tables_with holidays.now (lent_mut t.old))
        (tables_with holidays.now (lent_mut t.new))
        e
        (answer_of result) }
{
    let mut counts = RowCounts::none(t.day() + 1);
    count_rows_to(t.read(), &mut counts);
    let plan = judge_tick(t, holidays, e, &counts)?;
    Ok(carry_out(t, e, plan, &counts))
}
