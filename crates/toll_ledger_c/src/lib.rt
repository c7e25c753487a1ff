// The exports of the static library that C hosts link: each calls toll_ledger's function of the same name, and has its clauses. Every table
// is a pointer and its length in words; include/toll_ledger.h declares them.
// Kept beside toll_ledger: an export cannot stand in a library crate, and each table comes as a pointer and a length.
#![tactic(auto)]

ghost use Rattle.std.specs.Prelude.{[]};
ghost use Rattle.call_rules.specs.Calls.{Gives, Replies, RepliesDebtor, open_call, event_call, batch_call, balance_call, topup_due_call, debtor_call};
ghost use Rattle.rules.specs.Tables.{tables_at};

use records::Event;

// Opens a book: eleven words, the first day, the schedule and the first rate list.
#[unsafe(no_mangle)]
pub extern "C" fn toll_ledger_open(
    header: &mut [i64],
    accounts: &mut [i64],
    journal: &mut [i64],
    holidays: &[i64],
    schedule: &[i64],
) -> i64
    ensures { Gives (open_call (tables_at header.old accounts.old journal.old holidays.now)
        schedule.now)
        result
        (tables_at header.new accounts.new journal.new holidays.now)
        [] }
{
    toll_ledger::toll_ledger_open(header, accounts, journal, holidays, schedule)
}

// Posts one event of nine words; the answer's five words are written wherever there is room for them.
#[unsafe(no_mangle)]
pub extern "C" fn toll_ledger_event(
    header: &mut [i64],
    accounts: &mut [i64],
    journal: &mut [i64],
    holidays: &[i64],
    event: &[i64],
    answer: &mut [i64],
) -> i64
    ensures { Gives (event_call (tables_at header.old accounts.old journal.old holidays.now)
        event.now
        answer.old)
        result
        (tables_at header.new accounts.new journal.new holidays.now)
        answer.new }
{
    toll_ledger::toll_ledger_event(header, accounts, journal, holidays, event, answer)
}

// The account's balance, 0 where the question is refused.
#[unsafe(no_mangle)]
pub extern "C" fn toll_ledger_balance(
    header: &[i64],
    accounts: &[i64],
    journal: &[i64],
    holidays: &[i64],
    account: i64,
    value: &mut i64,
) -> i64
    ensures { Replies (balance_call (tables_at header.now accounts.now journal.now holidays.now) account)
        result
        value.new }
{
    toll_ledger::toll_ledger_balance(header, accounts, journal, holidays, account, value)
}

// 1 where the account's top-up is due, 0 where it is not or the question is refused.
#[unsafe(no_mangle)]
pub extern "C" fn toll_ledger_topup_due(
    header: &[i64],
    accounts: &[i64],
    journal: &[i64],
    holidays: &[i64],
    account: i64,
    value: &mut i64,
) -> i64
    ensures { Replies (topup_due_call (tables_at header.now accounts.now journal.now holidays.now) account)
        result
        value.new }
{
    toll_ledger::toll_ledger_topup_due(header, accounts, journal, holidays, account, value)
}

// 1 where the account is a heavy debtor, 0 where it is not, and how many rows were read to tell; both 0 where the question is refused.
#[unsafe(no_mangle)]
pub extern "C" fn toll_ledger_debtor(
    header: &[i64],
    accounts: &[i64],
    journal: &[i64],
    holidays: &[i64],
    account: i64,
    heavy: &mut i64,
    rows_read: &mut i64,
) -> i64
    ensures { RepliesDebtor (debtor_call (tables_at header.now accounts.now journal.now holidays.now)
        account)
        result
        heavy.new
        rows_read.new }
{
    toll_ledger::toll_ledger_debtor(
        header, accounts, journal, holidays, account, heavy, rows_read,
    )
}

// Posts the events in order, going on after a refusal, and gives 0; a batch that is refused writes nothing.
#[unsafe(no_mangle)]
pub extern "C" fn toll_ledger_batch(
    header: &mut [i64],
    accounts: &mut [i64],
    journal: &mut [i64],
    holidays: &[i64],
    events: &[Event],
    answers: &mut [i64],
) -> i64
    ensures { Gives (batch_call (tables_at header.old accounts.old journal.old holidays.now)
        events.now
        answers.old)
        result
        (tables_at header.new accounts.new journal.new holidays.now)
        answers.new }
{
    toll_ledger::toll_ledger_batch(header, accounts, journal, holidays, events, answers)
}
