// The three tables of a book that events write, as a caller lends them: to be read, or to be written; and what is asked of them: the day,
// the used rows, an account, the room. The holidays, which no call writes, are lent beside them.
#![tactic(auto)]

ghost use Rattle.std.specs.Prelude.{◌≡◌, ◌+◌, ◌*◌, ◌^◌, ◌≤◌, ◌<◌, length, leb};
ghost use Rattle.records.specs.Layout.{day_place, used_place, row_width};
ghost use Rattle.records.specs.Encoding.{word, accounts_of};
ghost use Rattle.rules.specs.Book.{account_no};
ghost use Rattle.rules.specs.Tables.{accounts_in, room_in};
ghost use Rattle.lent.specs.Lent.{lent, lent_mut};

use records::Account;
use records::layout::{ACCOUNT_WIDTH, DAY_PLACE, ROW_WIDTH, USED_PLACE};
use table_accounts::account_numbered;
use table_rows::Rows;
use tables::words::get;

// To be read.
#[derive(Clone, Copy)]
pub struct Tables<'a> {
    pub header: &'a [i64],
    pub accounts: &'a [i64],
    pub journal: &'a [i64],
}

// To be written.
// Kept: that the tables are sound is a clause and no ghost field: midway through an event that writes them they are not, and a view of them
// that is sound would be made, and its field shown, at each call of a function that only reads.
#[derive(Drop)]
pub struct TablesMut<'a> {
    pub header: &'a mut [i64],
    pub accounts: &'a mut [i64],
    pub journal: &'a mut [i64],
}

impl<'a> Tables<'a> {
    // The day, a word of the header.
    pub fn day(&self) -> u64
        requires { day_place < length self.now.header.now }
        ensures { result ≡ word self.now.header.now day_place }
    {
        get(self.header, DAY_PLACE)
    }

    // How many rows are used, a word of the header.
    pub fn used(&self) -> u64
        requires { used_place < length self.now.header.now }
        ensures { result ≡ word self.now.header.now used_place }
    {
        get(self.header, USED_PLACE)
    }

    // The used rows.
    pub fn rows(&self) -> Rows<'a>
        requires { (used_place < length self.now.header.now)
            × (word self.now.header.now used_place * row_width ≤ length self.now.journal.now) }
        ensures journal { result.journal.now ≡ self.now.journal.now }
        ensures used { result.used ≡ word self.now.header.now used_place }
    {
        Rows {
            journal: self.journal,
            used: self.used() as usize,
        }
    }

    // How many rows the journal has room for.
    pub fn room(&self) -> usize
        ensures { result ≡ room_in (lent self.now) }
    {
        self.journal.len() / ROW_WIDTH
    }

    // Whether n rows more than the used ones have room.
    pub fn has_room(&self, n: usize) -> bool
        requires { (used_place < length self.now.header.now)
            × (word self.now.header.now used_place + n < 2 ^ 64) }
        ensures { result ≡ leb (word self.now.header.now used_place + n) (room_in (lent self.now)) }
    {
        self.used() as usize + n <= self.room()
    }

    // How many accounts there are.
    pub fn count(&self) -> usize
        ensures { result ≡ accounts_in (lent self.now) }
    {
        self.accounts.len() / ACCOUNT_WIDTH
    }

    // Account n, counted from 1; unused where there is none.
    pub fn account(&self, n: u64) -> Account
        ensures { result ≡ account_no (accounts_of self.now.accounts.now (accounts_in (lent self.now))) n }
    {
        account_numbered(self.accounts, self.count(), n)
    }
}

impl TablesMut<'_> {
    // The same tables, to be read.
    pub fn read(&self) -> Tables<'_>
        ensures header { result.header.now ≡ self.now.header.now }
        ensures accounts { result.accounts.now ≡ self.now.accounts.now }
        ensures journal { result.journal.now ≡ self.now.journal.now }
        ensures tables { lent result ≡ lent_mut self.now }
    {
        Tables {
            header: self.header,
            accounts: self.accounts,
            journal: self.journal,
        }
    }

    // What is asked of tables to be read is asked of these too.
    // Kept: a call each, so that one contract and not two says what a caller learns.
    pub fn day(&self) -> u64
        requires { day_place < length self.now.header.now }
        ensures { result ≡ word self.now.header.now day_place }
    {
        self.read().day()
    }

    pub fn used(&self) -> u64
        requires { used_place < length self.now.header.now }
        ensures { result ≡ word self.now.header.now used_place }
    {
        self.read().used()
    }

    pub fn rows(&self) -> Rows<'_>
        requires { (used_place < length self.now.header.now)
            × (word self.now.header.now used_place * row_width ≤ length self.now.journal.now) }
        ensures journal { result.journal.now ≡ self.now.journal.now }
        ensures used { result.used ≡ word self.now.header.now used_place }
    {
        self.read().rows()
    }

    pub fn has_room(&self, n: usize) -> bool
        requires { (used_place < length self.now.header.now)
            × (word self.now.header.now used_place + n < 2 ^ 64) }
        ensures { result ≡ leb (word self.now.header.now used_place + n) (room_in (lent_mut self.now)) }
    {
        self.read().has_room(n)
    }

    pub fn count(&self) -> usize
        ensures { result ≡ accounts_in (lent_mut self.now) }
    {
        self.read().count()
    }

    pub fn account(&self, n: u64) -> Account
        ensures { result ≡ account_no (accounts_of self.now.accounts.now (accounts_in (lent_mut self.now))) n }
    {
        self.read().account(n)
    }
}
