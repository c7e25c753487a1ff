// How the events end that add one row, and those that only change the row or the account that they name: what has to be is settled, and
// the posting told. Each takes the tables that it writes, to be written, and those that it reads or that its contract is about, to be read.
#![tactic(auto)]

ghost use Rattle.std.specs.Prelude.{◌≡◌, true, Ok};
ghost use Rattle.records.specs.Outcomes.{answer_of};
ghost use Rattle.records.specs.Layout.{used_place};
ghost use Rattle.records.specs.Encoding.{word};
ghost use Rattle.rules.specs.Tables.{sound_tables, three_tables};
ghost use Rattle.posting.specs.Posts.{acceptance_of, PostsAny};
ghost use Rattle.event_lookups.specs.Lookups.{LooksUp};
ghost use Rattle.event_ends.specs.Ends.{AddSettles, AddedSettled, payment_today, sources_from_next, Puts, PutsAccount};

use event_lookups::Lookup;
use posting::answers::posted;
use posting::rows::{add_row, new_row};
use records::codes::KIND_PAYMENT;
use records::layout::{DAY_PLACE, USED_PLACE};
use records::{Account, Instruction, Posting, Row};
use settlement::settle_from;
use table_accounts::write_account;
use table_rows::write_row;
use tables::words::get;

// The row is added, and its account settled, from the rows on that were looked up.
pub fn add_and_settle(header: &mut [i64], journal: &mut [i64], r: Row, k: Lookup) -> Posting
    requires { AddSettles header.old journal.old r k }
    ensures settled { AddedSettled header.old header.new journal.old journal.new r }
    ensures answer { answer_of (Ok result) ≡ acceptance_of (word header.old used_place) 1 0 0 }
{
    let used = get(header, USED_PLACE);
    add_row(header, journal, r);
    settle_from(journal, used as usize + 1, r.account, k.source, k.debit);
    posted(used, 1, 0, false)
}

// A payment of today is added; then settlement, from this row on, since no source before it has money for a debt.
pub fn pay_and_settle(
    header: &mut [i64],
    journal: &mut [i64],
    account: u64,
    amount: u64,
    mark: u64,
    k: Lookup,
) -> Posting
    requires { AddSettles header.old journal.old
        (payment_today header.old account amount mark)
        (sources_from_next header.old k) }
    ensures settled { AddedSettled header.old header.new journal.old journal.new
        (payment_today header.old account amount mark) }
    ensures answer { answer_of (Ok result) ≡ acceptance_of (word header.old used_place) 1 0 0 }
{
    let today = get(header, DAY_PLACE);
    let used = get(header, USED_PLACE);
    let r = Row {
        mark,
        ..new_row(KIND_PAYMENT, account, today, amount)
    };
    let k = Lookup {
        source: used as usize,
        ..k
    };
    add_and_settle(header, journal, r, k)
}

// The row that the event names becomes r, and the account is settled.
pub fn put_and_settle(
    header: &[i64],
    accounts: &[i64],
    journal: &mut [i64],
    e: Instruction,
    r: Row,
    k: Lookup,
) -> Posting
    requires { (sound_tables (three_tables header.now accounts.now journal.old) ≡ true)
        × LooksUp (three_tables header.now accounts.now journal.old) e k
        × Puts (three_tables header.now accounts.now journal.old) e r }
    ensures { PostsAny (three_tables header.now accounts.now journal.old)
        (three_tables header.now accounts.now journal.new)
        e
        (answer_of (Ok result)) }
{
    let used = get(header, USED_PLACE);
    write_row(journal, (e.a - 1) as usize, r);
    settle_from(journal, used as usize, e.account, k.source, k.debit);
    posted(used, 0, 0, false)
}

// The account that the event names becomes x. No row concerns it, so there is nothing to settle.
pub fn put_account(
    header: &[i64],
    accounts: &mut [i64],
    journal: &[i64],
    e: Instruction,
    x: Account,
    removed: bool,
) -> Posting
    requires { (sound_tables (three_tables header.now accounts.old journal.now) ≡ true)
        × PutsAccount (three_tables header.now accounts.old journal.now) e x removed }
    ensures { PostsAny (three_tables header.now accounts.old journal.now)
        (three_tables header.now accounts.new journal.now)
        e
        (answer_of (Ok result)) }
{
    write_account(accounts, (e.account - 1) as usize, x);
    posted(get(header, USED_PLACE), 0, 0, removed)
}
