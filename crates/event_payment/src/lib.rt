// Event 3: a payment.
#![tactic(auto)]

ghost use Rattle.std.specs.Prelude.{◌≡◌, true};
ghost use Rattle.rules.specs.Refusals.{answer_number};
ghost use Rattle.records.specs.Outcomes.{number_by, answer_of};
ghost use Rattle.rules.specs.Tables.{book_of, sound_tables, three_tables};
ghost use Rattle.event_lookups.specs.Lookups.{LooksUp};
ghost use Rattle.posting.specs.Posts.{PostsAny};
ghost use Rattle.event_refusals.specs.Admissions.{Admitted, Names};
ghost use Rattle.records.specs.Codes.{event_payment};
ghost use Rattle.lent.specs.Lent.{lent};

use event_ends::pay_and_settle;
use event_lookups::Lookup;
use lent::Tables;
use records::codes::METHOD_CHECK;
use records::limits::BARRING_RETURNS;
use records::refusals::Refusal;
use records::{Account, Instruction, Posting};

// Why event 3 of an admitted account is refused, if it is.
fn check_payment(t: Tables, e: Instruction, x: Account) -> Result<(), Refusal>
    requires { (sound_tables (lent t) ≡ true)
        × (e.kind ≡ event_payment)
        × Admitted (lent t) e
        × Names (lent t) e x }
    ensures { number_by result ≡ answer_number (book_of (lent t.entry)) e }
{
    if (e.b == METHOD_CHECK) & (BARRING_RETURNS <= x.returned) {
        return Err(Refusal::Barred);
    }
    if !t.has_room(1) {
        return Err(Refusal::Full);
    }
    Ok(())
}

// Event 3: the payment row, its mark the method; then settlement.
pub fn post_payment(
    header: &mut [i64],
    accounts: &[i64],
    journal: &mut [i64],
    e: Instruction,
    x: Account,
    k: Lookup,
) -> Result<Posting, Refusal>
    requires { (sound_tables (three_tables header.old accounts.now journal.old) ≡ true)
        × (e.kind ≡ event_payment)
        × LooksUp (three_tables header.old accounts.now journal.old) e k
        × Admitted (three_tables header.old accounts.now journal.old) e
        × Names (three_tables header.old accounts.now journal.old) e x }
    ensures { PostsAny (three_tables header.old accounts.now journal.old)
        (three_tables header.new accounts.now journal.new)
        e
        (answer_of result) }
{
    let t = Tables {
        header,
        accounts,
        journal,
    };
    check_payment(t, e, x)?;
    Ok(pay_and_settle(header, journal, e.account, e.a, e.b, k))
}
