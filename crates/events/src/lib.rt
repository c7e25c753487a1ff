// One event on the tables of a sound book: the shared refusals first, then what it needs is looked up, and the kind decides which
// function posts it.
#![tactic(auto)]

ghost use Rattle.std.specs.Prelude.{◌≡◌, true};
ghost use Rattle.records.specs.Outcomes.{answer_of};
ghost use Rattle.rules.specs.Tables.{tables_with, sound_tables};
ghost use Rattle.event_lookups.specs.Lookups.{LooksUp};
ghost use Rattle.posting.specs.Posts.{Posts};
ghost use Rattle.event_heirs.specs.Heirs.{Receives};
ghost use Rattle.event_refusals.specs.Admissions.{Admitted, Names};
ghost use Rattle.lent.specs.Lent.{lent_mut, SameTables};

use event_accounts::{open_account, request_close, set_reserve, set_successor};
use event_decision::decide;
use event_dispute::hold_toll;
use event_heirs::forward;
use event_list::add_list;
use event_lookups::{Lookup, look_up};
use event_payment::post_payment;
use event_refusals::admit;
use event_return::return_check;
use event_tick::tick;
use event_toll::post_toll;
use event_topup::topup_result;
use lent::TablesMut;
use records::codes::{
    EVENT_CLOSE_REQUEST, EVENT_DECISION, EVENT_DISPUTE, EVENT_OPEN, EVENT_PAYMENT, EVENT_RATE_LIST,
    EVENT_RESERVE, EVENT_RETURNED_CHECK, EVENT_SUCCESSOR, EVENT_TICK, EVENT_TOLL,
    EVENT_TOPUP_RESULT,
};
use records::refusals::Refusal;
use records::{Account, Instruction, Posting};

// An admitted event, of the account x and with what has been looked up for it. No other kind is admitted. The tick alone reads the
// holidays.
// Kept: the three go on one by one, since three of the twelve functions take them all, and each asks for no more than it uses; so do the
// facts of them (Admitted, Names, LooksUp), which are about the tables too.
pub fn post_admitted(
    t: &mut TablesMut,
    holidays: &[i64],
    e: Instruction,
    x: Account,
    k: Lookup,
) -> Result<Posting, Refusal>
    requires { (sound_tables (tables_with holidays.now (lent_mut t.old)) ≡ true)
        × LooksUp (lent_mut t.old) e k
        × Admitted (lent_mut t.old) e
        × Names (lent_mut t.old) e x }
    ensures same { SameTables t.old t.new }
    ensures posts { Posts (tables_with holidays.now (lent_mut t.old))
        (tables_with holidays.now (lent_mut t.new))
        e
        (answer_of result) }
{
    let kind = e.kind;
    // Kept: a switch, since the functions take different parameters. Each table is lent by `&mut`, also to a function that only reads it:
    // for a field of `t` that is lent to be read beside one that is lent to be written the prover has no rule.
    match kind {
        EVENT_OPEN => Ok(open_account(&mut *t.header, &mut *t.accounts, &mut *t.journal, e)),
        EVENT_TOLL => post_toll(&mut *t.header, &mut *t.accounts, &mut *t.journal, e, k),
        EVENT_PAYMENT => post_payment(&mut *t.header, &mut *t.accounts, &mut *t.journal, e, x, k),
        EVENT_RETURNED_CHECK => return_check(t, e, x, k),
        EVENT_DISPUTE => hold_toll(&mut *t.header, &mut *t.accounts, &mut *t.journal, e, k),
        EVENT_DECISION => decide(&mut *t.header, &mut *t.accounts, &mut *t.journal, e, k),
        EVENT_TOPUP_RESULT => topup_result(t, e, x, k),
        EVENT_CLOSE_REQUEST => request_close(
            &mut *t.header,
            &mut *t.accounts,
            &mut *t.journal,
            e,
            x,
        ),
        EVENT_TICK => tick(t, holidays, e),
        EVENT_RATE_LIST => Ok(add_list(&mut *t.header, &mut *t.accounts, &mut *t.journal, e)),
        EVENT_RESERVE => set_reserve(&mut *t.header, &mut *t.accounts, &mut *t.journal, e, x),
        EVENT_SUCCESSOR => set_successor(&mut *t.header, &mut *t.accounts, &mut *t.journal, e, x),
        _ => Err(Refusal::Malformed),
    }
}

// One event by itself, on the account that takes it: only where it is admitted is the journal searched for it.
pub fn post_event(t: &mut TablesMut, holidays: &[i64], e: Instruction) -> Result<Posting, Refusal>
    requires { sound_tables (tables_with holidays.now (lent_mut t.old)) ≡ true }
    ensures same { SameTables t.old t.new }
    ensures posts { Receives (tables_with holidays.now (lent_mut t.old))
        (tables_with holidays.now (lent_mut t.new))
        e
        (answer_of result) }
{
    let tables = t.read();
    let e = forward(tables, e);
    let x = admit(tables, e)?;
    let k = look_up(tables, e);
    post_admitted(t, holidays, e, x, k)
}
