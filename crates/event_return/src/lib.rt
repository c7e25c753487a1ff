// Event 4: a returned check.
#![tactic(auto)]

ghost use Rattle.std.specs.Prelude.{◌≡◌, true};
ghost use Rattle.records.specs.Layout.{day_place};
ghost use Rattle.records.specs.Encoding.{word, StorableRow};
ghost use Rattle.rules.specs.Rows.{new_row, with_reference};
ghost use Rattle.rules.specs.Refusals.{answer_number};
ghost use Rattle.records.specs.Outcomes.{number_by, answer_of};
ghost use Rattle.rules.specs.Tables.{book_of, sound_tables};
ghost use Rattle.event_lookups.specs.Lookups.{LooksUp};
ghost use Rattle.posting.specs.Posts.{RowRoom, RowAdded, PostsAny};
ghost use Rattle.event_refusals.specs.Admissions.{Admitted, Names};
ghost use Rattle.event_return.specs.Return.{Counts, ReturnCounted, Marks, Marked};
ghost use Rattle.records.specs.Codes.{event_returned_check};
ghost use Rattle.lent.specs.Lent.{lent_mut, SameTables};

use event_lookups::Lookup;
use lent::TablesMut;
use posting::answers::posted;
use posting::rows::{add_row, row_naming};
use records::codes::{KIND_FEE, KIND_PAYMENT, KIND_REVERSAL, METHOD_CHECK, METHOD_CHECK_RETURNED};
use records::layout::DAY_PLACE;
use records::limits::RETURN_FEE;
use records::refusals::Refusal;
use records::{Account, Instruction, Posting};
use row_tests::is_of;
use settlement::settle_from;
use table_accounts::write_account;
use table_rows::{Rows, write_row};
use tables::words::get;

// Why an admitted event 4 is refused, if it is.
fn check_return(t: &TablesMut, e: Instruction) -> Result<(), Refusal>
    requires { (sound_tables (lent_mut t.now) ≡ true)
        × (e.kind ≡ event_returned_check)
        × Admitted (lent_mut t.now) e }
    ensures { number_by result ≡ answer_number (book_of (lent_mut t.now)) e }
{
    let r = t.rows().numbered(e.a);
    if !is_of(r, KIND_PAYMENT, e.account) {
        return Err(Refusal::NoRow);
    }
    if r.mark != METHOD_CHECK {
        return Err(Refusal::Untimely);
    }
    if !t.has_room(2) {
        return Err(Refusal::Full);
    }
    Ok(())
}

// Account n, which is x, counts a returned check more; closed, it is pending again.
fn count_return(accounts: &mut [i64], n: u64, x: Account)
    requires { Counts accounts.old n x }
    ensures { ReturnCounted accounts.old accounts.new n x }
{
    write_account(accounts, (n - 1) as usize, x.return_check());
}

// Payment row n is marked returned. The result is its amount.
fn mark_returned(journal: &mut [i64], used: usize, n: u64) -> u64
    requires { Marks journal.old used n }
    ensures { Marked journal.old journal.new used n result }
{
    let rows = Rows { journal, used };
    let mut r = rows.numbered(n);
    r.mark = METHOD_CHECK_RETURNED;
    write_row(journal, (n - 1) as usize, r);
    r.amount
}

// A row of today that names the returned payment's.
fn add_naming(header: &mut [i64], journal: &mut [i64], e: Instruction, kind: u64, amount: u64)
    requires { RowRoom header.old journal.old
        × StorableRow (with_reference e.a (new_row kind e.account (word header.old day_place) amount)) }
    ensures { RowAdded header.old header.new journal.old journal.new
        (with_reference e.a (new_row kind e.account (word header.old day_place) amount)) }
{
    let r = row_naming(kind, e.account, get(header, DAY_PLACE), amount, e.a);
    add_row(header, journal, r);
}

// Event 4: the account counts the return, the payment is marked, a reversal of its amount and a fee are added; then settlement.
pub fn return_check(
    t: &mut TablesMut,
    e: Instruction,
    x: Account,
    k: Lookup,
) -> Result<Posting, Refusal>
    requires { (sound_tables (lent_mut t.old) ≡ true)
        × (e.kind ≡ event_returned_check)
        × LooksUp (lent_mut t.old) e k
        × Admitted (lent_mut t.old) e
        × Names (lent_mut t.old) e x }
    ensures same { SameTables t.old t.new }
    ensures posts { PostsAny (lent_mut t.old) (lent_mut t.new) e (answer_of result) }
{
    check_return(t, e)?;
    let used = t.used();
    count_return(t.accounts, e.account, x);
    let amount = mark_returned(t.journal, used as usize, e.a);
    add_naming(&mut *t.header, &mut *t.journal, e, KIND_REVERSAL, amount);
    add_naming(
        &mut *t.header,
        &mut *t.journal,
        e,
        KIND_FEE,
        e.b + RETURN_FEE,
    );
    settle_from(t.journal, used as usize + 2, e.account, k.source, k.debit);
    Ok(posted(used, 2, 0, false))
}
