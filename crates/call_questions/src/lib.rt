// The questions, which change nothing: an account's balance, whether its top-up is due, whether it is a heavy debtor, and a row's words as
// a part of the lent journal. Each checks the book first.
#![tactic(auto)]

ghost use Rattle.std.specs.Prelude.{◌≡◌, pos, ◌&&◌};
ghost use Rattle.lists.specs.Tests.{◌from◌to◌, first};
ghost use Rattle.records.specs.Outcomes.{number_by};
ghost use Rattle.call_questions.specs.Values.{value_of, flag_of, heavy_of, rows_read_of};
ghost use Rattle.rules.specs.Tables.{tables_with, rows_used, sound_tables};
ghost use Rattle.call_rules.specs.Calls.{Replies, RepliesDebtor, question_refusals, balance_call, topup_due_call, debtor_call};
ghost use Rattle.call_questions.specs.RowParts.{RowPart};
ghost use Rattle.lent.specs.Lent.{lent};

use balances::debtor::{Debtor, judge_debtor};
use balances::summable::SummableRows;
use balances::sums_of;
use lent::Tables;
use records::codes::STATE_UNUSED;
use records::layout::ROW_WIDTH;
use records::refusals::Refusal;
use records::words::natural;
use soundness::sound;

// Why a question about account n is refused, if it is.
fn check_question(t: Tables, holidays: &[i64], n: u64) -> Result<(), Refusal>
    ensures { number_by result ≡ first (question_refusals (tables_with holidays.now (lent t.entry))
        n) }
{
    if !sound(t, holidays) {
        return Err(Refusal::Unsound);
    }
    let x = t.account(n);
    if x.state == STATE_UNUSED {
        return Err(Refusal::Unknown);
    }
    Ok(())
}

// The account's balance: its sources less its debits, held ones included.
pub fn balance(t: Tables, holidays: &[i64], account: i64) -> Result<i64, Refusal>
    ensures { Replies (balance_call (tables_with holidays.now (lent t.entry)) account)
        (pos (number_by result))
        (value_of result) }
{
    let n = natural(account);
    check_question(t, holidays, n)?;
    let summable = SummableRows { rows: t.rows() };
    let s = sums_of(summable, n);
    Ok(s.balance())
}

// Whether the account's top-up is due.
pub fn topup_due(t: Tables, holidays: &[i64], account: i64) -> Result<bool, Refusal>
    ensures { Replies (topup_due_call (tables_with holidays.now (lent t.entry)) account)
        (pos (number_by result))
        (flag_of result) }
{
    let n = natural(account);
    check_question(t, holidays, n)?;
    Ok(balances::topup_due(t, n))
}

// Whether the account is a heavy debtor, and how many rows were read to tell.
pub fn debtor(t: Tables, holidays: &[i64], account: i64) -> Result<Debtor, Refusal>
    ensures { RepliesDebtor (debtor_call (tables_with holidays.now (lent t.entry)) account)
        (pos (number_by result))
        (heavy_of result)
        (rows_read_of result) }
{
    let n = natural(account);
    check_question(t, holidays, n)?;
    let summable = SummableRows { rows: t.rows() };
    Ok(judge_debtor(summable, n))
}

// Whether the book is sound and row n, counted from 1, is used.
fn row_used(t: Tables, holidays: &[i64], n: u64) -> bool
    ensures { result ≡ sound_tables (tables_with holidays.now (lent t.entry))
        && n from 1 to rows_used (lent t.entry) }
{
    if !sound(t, holidays) {
        return false;
    }
    (1 <= n) & (n <= t.used())
}

// The ten words of a used row: the very part of the lent journal; an empty part where the book is unsound or the row isn't used.
// Kept: the empty part and no Option, since document 01 gives it as the reply.
pub fn row<'a>(t: Tables<'a>, holidays: &[i64], number: i64) -> &'a [i64]
    ensures { RowPart (tables_with holidays.now (lent t.entry))
        number
        t.entry.journal.ref_ptr
        result.now
        result.ref_ptr }
{
    let n = natural(number);
    if !row_used(t, holidays, n) {
        return &t.journal[0..0];
    }
    let start = (n - 1) as usize * ROW_WIDTH;
    let end = start + ROW_WIDTH;
    &t.journal[start..end]
}
