// The calls of the ledger: each thin over the call of the same name, its contract that call's own, with no `requires`. The crate
// toll_ledger_c exports them to C.
#![tactic(auto)]

ghost use Rattle.std.specs.Prelude.{◌≡◌, [], pos};
ghost use Rattle.records.specs.Outcomes.{number_by};
ghost use Rattle.call_questions.specs.Values.{value_of, heavy_of, rows_read_of};
ghost use Rattle.call_rules.specs.Calls.{Gives, Replies, RepliesDebtor, open_call, event_call, batch_call, balance_call, topup_due_call, debtor_call};
ghost use Rattle.rules.specs.Tables.{tables_at};

use balances::debtor::Debtor;
use call_batch::batch_call;
use call_event::event_call;
use call_opening::open_book;
use call_questions::{balance, debtor, topup_due};
use lent::{Tables, TablesMut};
use records::Event;
use records::refusals::Refusal;

// The number that a call gives the host: 0 where it is not refused.
fn number_of(outcome: Result<(), Refusal>) -> i64
    ensures { result ≡ pos (number_by outcome) }
{
    match outcome {
        Ok(()) => 0,
        Err(refusal) => i64::from(refusal),
    }
}

// The number that a question gives the host; its value, 0 where it is refused, is put in its place.
fn reply(outcome: Result<i64, Refusal>, value: &mut i64) -> i64
    ensures number { result ≡ pos (number_by outcome) }
    ensures value { value.new ≡ value_of outcome }
{
    match outcome {
        Ok(v) => {
            *value = v;
            0
        }
        Err(refusal) => {
            *value = 0;
            i64::from(refusal)
        }
    }
}

// The number that the question about a debtor gives the host; its two values, 0 where it is refused, are put in their places.
fn tell_debtor(outcome: Result<Debtor, Refusal>, heavy: &mut i64, rows_read: &mut i64) -> i64
    ensures number { result ≡ pos (number_by outcome) }
    ensures heavy { heavy.new ≡ heavy_of outcome }
    ensures rows { rows_read.new ≡ rows_read_of outcome }
{
    match outcome {
        Ok(d) => {
            *heavy = i64::from(d.heavy);
            *rows_read = i64::from(d.rows);
            0
        }
        Err(refusal) => {
            *heavy = 0;
            *rows_read = 0;
            i64::from(refusal)
        }
    }
}

// Opens a book: eleven words, the first day, the schedule and the first rate list.
pub fn toll_ledger_open(
    header: &mut [i64],
    accounts: &mut [i64],
    journal: &mut [i64],
    holidays: &[i64],
    schedule: &[i64],
) -> i64
    ensures { Gives (open_call (tables_at header.old accounts.old journal.old holidays.now)
        schedule.now)
        result
        (tables_at header.new accounts.new journal.new holidays.now)
        [] }
{
    let mut t = TablesMut {
        header,
        accounts,
        journal,
    };
    number_of(open_book(&mut t, holidays, schedule))
}

// Posts one event of nine words; the answer's five words are written wherever there is room for them.
pub fn toll_ledger_event(
    header: &mut [i64],
    accounts: &mut [i64],
    journal: &mut [i64],
    holidays: &[i64],
    event: &[i64],
    answer: &mut [i64],
) -> i64
    ensures { Gives (event_call (tables_at header.old accounts.old journal.old holidays.now)
        event.now
        answer.old)
        result
        (tables_at header.new accounts.new journal.new holidays.now)
        answer.new }
{
    let mut t = TablesMut {
        header,
        accounts,
        journal,
    };
    number_of(event_call(&mut t, holidays, event, answer))
}

// The account's balance, 0 where the question is refused.
pub fn toll_ledger_balance(
    header: &[i64],
    accounts: &[i64],
    journal: &[i64],
    holidays: &[i64],
    account: i64,
    value: &mut i64,
) -> i64
    ensures { Replies (balance_call (tables_at header.now accounts.now journal.now holidays.now) account)
        result
        value.new }
{
    let t = Tables {
        header,
        accounts,
        journal,
    };
    reply(balance(t, holidays, account), value)
}

// 1 where the account's top-up is due, 0 where it is not or the question is refused.
pub fn toll_ledger_topup_due(
    header: &[i64],
    accounts: &[i64],
    journal: &[i64],
    holidays: &[i64],
    account: i64,
    value: &mut i64,
) -> i64
    ensures { Replies (topup_due_call (tables_at header.now accounts.now journal.now holidays.now) account)
        result
        value.new }
{
    let t = Tables {
        header,
        accounts,
        journal,
    };
    let due = topup_due(t, holidays, account);
    reply(due.map(i64::from), value)
}

// 1 where the account is a heavy debtor, 0 where it is not, and how many rows were read to tell; both 0 where the question is refused.
pub fn toll_ledger_debtor(
    header: &[i64],
    accounts: &[i64],
    journal: &[i64],
    holidays: &[i64],
    account: i64,
    heavy: &mut i64,
    rows_read: &mut i64,
) -> i64
    ensures { RepliesDebtor (debtor_call (tables_at header.now accounts.now journal.now holidays.now)
        account)
        result
        heavy.new
        rows_read.new }
{
    let t = Tables {
        header,
        accounts,
        journal,
    };
    let outcome = debtor(t, holidays, account);
    tell_debtor(outcome, heavy, rows_read)
}

// Posts the events in order, going on after a refusal, and gives 0; a batch that is refused writes nothing.
pub fn toll_ledger_batch(
    header: &mut [i64],
    accounts: &mut [i64],
    journal: &mut [i64],
    holidays: &[i64],
    events: &[Event],
    answers: &mut [i64],
) -> i64
    ensures { Gives (batch_call (tables_at header.old accounts.old journal.old holidays.now)
        events.now
        answers.old)
        result
        (tables_at header.new accounts.new journal.new holidays.now)
        answers.new }
{
    let mut t = TablesMut {
        header,
        accounts,
        journal,
    };
    number_of(batch_call(&mut t, holidays, events, answers))
}
