// Event 7: the result of a top-up.
#![tactic(auto)]

ghost use Rattle.std.specs.Prelude.{◌≡◌, true, Ok};
ghost use Rattle.rules.specs.Refusals.{answer_number};
ghost use Rattle.records.specs.Outcomes.{number_by, answer_of};
ghost use Rattle.rules.specs.Tables.{book_of, sound_tables};
ghost use Rattle.event_lookups.specs.Lookups.{LooksUp};
ghost use Rattle.posting.specs.Posts.{Posts, PostsAny};
ghost use Rattle.event_refusals.specs.Admissions.{Admitted, Names};
ghost use Rattle.event_topup.specs.TopupResult.{PaidResult};
ghost use Rattle.records.specs.Codes.{event_topup_result};
ghost use Rattle.lent.specs.Lent.{lent_mut, SameTables};

use event_ends::{pay_and_settle, put_account};
use event_lookups::Lookup;
use lent::TablesMut;
use records::codes::{CODE_YES, METHOD_CARD};
use records::refusals::Refusal;
use records::{Account, Instruction, Posting};
use table_accounts::write_account;

// Why an admitted event 7 is refused, if it is.
fn check_result(t: &TablesMut, e: Instruction, k: Lookup) -> Result<(), Refusal>
    requires { (sound_tables (lent_mut t.now) ≡ true)
        × (e.kind ≡ event_topup_result)
        × LooksUp (lent_mut t.now) e k
        × Admitted (lent_mut t.now) e }
    ensures { number_by result ≡ answer_number (book_of (lent_mut t.now)) e }
{
    if !k.due {
        return Err(Refusal::Untimely);
    }
    if (e.b == CODE_YES) & !t.has_room(1) {
        return Err(Refusal::Full);
    }
    Ok(())
}

// Paid: the declines are forgotten, a reserve that paid takes the primary's place, and a card payment of the top-up amount is added; then
// settlement.
fn pay_topup(t: &mut TablesMut, e: Instruction, x: Account, k: Lookup) -> Posting
    requires { PaidResult (lent_mut t.old) e
        × LooksUp (lent_mut t.old) e k
        × Names (lent_mut t.old) e x }
    ensures same { SameTables t.old t.new }
    ensures posts { Posts (lent_mut t.old) (lent_mut t.new) e (answer_of (Ok result)) }
{
    let paid = x.pay_topup();
    write_account(t.accounts, (e.account - 1) as usize, paid);
    pay_and_settle(
        &mut *t.header,
        &mut *t.journal,
        e.account,
        x.topup,
        METHOD_CARD,
        k,
    )
}

// Event 7: a paid or a declined top-up. Declines and reserve alone tell whom the result concerns, the primary or its reserve.
pub fn topup_result(
    t: &mut TablesMut,
    e: Instruction,
    x: Account,
    k: Lookup,
) -> Result<Posting, Refusal>
    requires { (sound_tables (lent_mut t.old) ≡ true)
        × (e.kind ≡ event_topup_result)
        × LooksUp (lent_mut t.old) e k
        × Admitted (lent_mut t.old) e
        × Names (lent_mut t.old) e x }
    ensures same { SameTables t.old t.new }
    ensures posts { PostsAny (lent_mut t.old) (lent_mut t.new) e (answer_of result) }
{
    check_result(t, e, k)?;
    if e.b == CODE_YES {
        return Ok(pay_topup(t, e, x, k));
    }
    let declined = x.decline(t.day());
    Ok(put_account(
        &mut *t.header,
        &mut *t.accounts,
        &mut *t.journal,
        e,
        declined,
        x.last_decline(),
    ))
}
