// The last step of a day tick: each pending account whose 15 days are over and that owes nothing closes, and its unused money leaves as
// one refund row.
#![tactic(auto)]

ghost use Rattle.std.specs.Prelude.{◌≡◌, List, ℤ};
ghost use Rattle.records.specs.Encoding.{row_at};
ghost use Rattle.rules.specs.Tick.{close_accounts};
ghost use Rattle.rules.specs.Tables.{accounts_in, tables_with, book_of};
ghost use Rattle.tables.specs.Changes.{RowIn, RowChanged, RowsMapped};
ghost use Rattle.posting.specs.Written.{Written};
ghost use Rattle.tick_close.specs.Closing.{closes_by, Closable, ClosedOne, use_up_by, Usable, UsableRows};
ghost use Rattle.tick_close.specs.Closing.{AllClosable, ClosedTo, ReadyToClose};
ghost use Rattle.lent.specs.Lent.{lent_mut, SameTables};

use account_sums::SLOTS;
use lent::TablesMut;
use posting::rows::{add_row, new_row};
use records::Account;
use records::codes::KIND_REFUND;
use row_passes::change_rows;
use row_tests::is_source;
use table_accounts::{read_account, write_account};
use table_rows::{account_at, put_settled, read_row};
use tick_base::days::days_over;
use tick_base::rows::CountableRows;
use tick_base::sums::Remains;

// Its days are over and it owes nothing.
fn is_closing(x: Account, today: u64, owed: u64) -> bool
    ensures { result ≡ closes_by today owed x }
{
    days_over(x, today) & (owed == 0)
}

// Row i is used whole if it is a source of a closing account. Few accounts close, so that is tested first, and the row's account is
// read alone.
fn use_row(accounts: &[i64], journal: &mut [i64], i: usize, today: u64, owed: &[u64; SLOTS])
    requires { RowIn journal.old i × Usable accounts.now (row_at journal.old i) }
    ensures { RowChanged journal.old journal.new i
        (use_up_by today accounts.now owed.now (row_at journal.old i)) }
{
    let n = account_at(journal, i) as usize;
    if !is_closing(read_account(accounts, n - 1), today, owed[n]) {
        return;
    }
    let r = read_row(journal, i);
    if !is_source(r) {
        return;
    }
    put_settled(journal, i, r.amount);
}

// The used rows, before any account changes.
fn use_rows(accounts: &[i64], journal: &mut [i64], used: usize, today: u64, owed: &[u64; SLOTS])
    requires { UsableRows accounts.now journal.old used }
    ensures { RowsMapped (use_up_by today accounts.now owed.now) journal.old
        journal.new used }
{
    change_rows(
        journal,
        used,
        |rows, i| use_row(accounts, rows, i, today, owed),
    );
}

// Account i, of number i + 1, closes if it is to; its money leaves as a row that is settled whole.
fn close_account(t: &mut TablesMut, i: usize, today: u64, remains: &Remains)
    requires { Closable t.old.header.now t.old.accounts.now t.old.journal.now i today remains.now }
    ensures same { SameTables t.old t.new }
    ensures closed { ClosedOne t.old.header.now t.new.header.now t.old.accounts.now t.new.accounts.now
        t.old.journal.now t.new.journal.now i today remains.now }
{
    let x = read_account(t.read().accounts, i);
    if !is_closing(x, today, remains.owed[i + 1]) {
        return;
    }
    write_account(t.accounts, i, x.close());
    let money = remains.money[i + 1];
    if money == 0 {
        return;
    }
    let mut r = new_row(KIND_REFUND, i as u64 + 1, today, money);
    r.settled = money;
    add_row(&mut *t.header, &mut *t.journal, r);
}

// The accounts in order of their numbers.
fn close_each(t: &mut TablesMut, today: u64, remains: &Remains)
    requires { AllClosable t.old.header.now t.old.accounts.now t.old.journal.now today remains.now }
    ensures same { SameTables t.old t.new }
    ensures closed { ClosedTo t.old.header.now t.old.accounts.now t.old.journal.now t.new.header.now
        t.new.accounts.now t.new.journal.now today remains.now
        (accounts_in (lent_mut t.old)) }
{
    for i in 0..t.count() {
        close_account(t, i, today, remains);
    }
}

// What remains is summed first: an account is judged on the book before any closes. That the day is a business day, by whatever holidays,
// is the caller's to know.
pub fn close_accounts(t: &mut TablesMut)
    requires { (hs : List ℤ) × ReadyToClose (tables_with hs (lent_mut t.old)) }
    ensures same { SameTables t.old t.new }
    ensures written { (hs : List ℤ)
        → ReadyToClose (tables_with hs (lent_mut t.old))
        → Written (tables_with hs (lent_mut t.old))
        (tables_with hs (lent_mut t.new))
        (close_accounts (book_of (tables_with hs (lent_mut t.old)))) }
{
    let used = t.used() as usize;
    let today = t.day();
    let countable = CountableRows { rows: t.rows() };
    let mut remains = Remains::none();
    remains.add_rows(&countable);
    let accounts = &mut *t.accounts;
    let journal = &mut *t.journal;
    use_rows(accounts, journal, used, today, &remains.owed);
    close_each(t, today, &remains);
}
