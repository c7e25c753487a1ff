// The slots of the index: for each account, from which row on something of its sources and of its debits can be left, and its unused
// money.
ghost use Rattle.std.specs.Prelude.{◌≡◌, true, ◌+◌, ◌^◌, ◌≤◌, ◌<◌, ltb, drop, replicate};
ghost use Rattle.records.specs.Encoding.{row_at};
ghost use Rattle.records.specs.Limits.{slot_count};
ghost use Rattle.lists.specs.Lists.{only};
ghost use Rattle.rules.specs.Rows.{remaining};
ghost use Rattle.rules.specs.Soundness.{kind_fits};
ghost use Rattle.tables.specs.Changes.{RowIn};
ghost use Rattle.table_rows.specs.UsedRows.{rows_in};
ghost use Rattle.batch_index.specs.Money.{money_with};
ghost use Rattle.batch_index.specs.Slots.{of_side, side_of, first_of, with_first, no_slot, slot_at};
ghost use Rattle.batch_index.specs.Slots.{SlotsHold, MoneysOf, MoneysUpTo, NextOpen, SlotsOf};

use account_sums::SLOTS;
use records::Row;
use row_tests::{is_source, remaining_of};
use table_rows::{account_at, read_row};
use tick_base::rows::CountableRows;

// Which rows of an account.
#[derive(Clone, Copy, PartialEq, Eq)]
pub enum Side {
    Sources,
    Debits,
}

// What is known of an account's rows: the first source and the first debit of which something can be left, and the unused money. The
// default is that of no rows, which an account number past the slots has.
#[derive(Clone, Copy, Default)]
pub struct Slot {
    pub source: usize,
    pub debit: usize,
    pub money: u64,
}

// The slots, by account number.
#[derive(Drop)]
pub struct Slots {
    by_account: [Slot; SLOTS],
}

// A row's side.
fn side_of(r: Row) -> Side
    ensures { result ≡ side_of r }
{
    if is_source(r) {
        Side::Sources
    } else {
        Side::Debits
    }
}

impl Slot {
    // The first row of a side.
    fn first(self, side: Side) -> usize
        ensures { result ≡ first_of side self }
    {
        match side {
            Side::Sources => self.source,
            Side::Debits => self.debit,
        }
    }

    // Another first row of a side.
    fn with_first(self, side: Side, row: usize) -> Slot
        ensures { result ≡ with_first side row self }
    {
        match side {
            Side::Sources => Slot {
                source: row,
                ..self
            },
            Side::Debits => Slot { debit: row, ..self },
        }
    }
}

// An account's money once one of its rows is added.
fn money_with(m: u64, r: Row) -> u64
    requires { m + remaining r < 2 ^ 64 }
    ensures { result ≡ money_with r.account m r }
{
    if is_source(r) {
        m + remaining_of(r)
    } else {
        m.saturating_sub(r.amount)
    }
}

// Something of row i is left on this side of the account. Most rows are other accounts', so the account is read first and alone.
fn open_at(journal: &[i64], i: usize, account: u64, side: Side) -> bool
    requires { RowIn journal.now i × (kind_fits (row_at journal.now i) ≡ true) }
    ensures { result ≡ ltb 0 (only (of_side side account) remaining (row_at journal.now i)) }
{
    if account_at(journal, i) != account {
        return false;
    }
    let r = read_row(journal, i);
    if side_of(r) != side {
        return false;
    }
    0 < remaining_of(r)
}

// The next row from i on of which something is left on this side of the account, or the end of the used rows.
// Kept beside `settlement::next_debit`, a search of a line over another test; its end is a place, which a slot keeps.
fn next_open(countable: &CountableRows, account: u64, side: Side, i: usize) -> usize
    requires { i ≤ countable.now.rows.used }
    ensures { NextOpen (of_side side account) countable.now.rows.journal.now countable.now.rows.used i result }
{
    (i..countable.rows.used)
        .find(|k| open_at(countable.rows.journal, *k, account, side))
        .unwrap_or(countable.rows.used)
}

impl Slots {
    // Of no rows.
    pub fn none() -> Slots
        ensures { result.by_account ≡ replicate slot_count no_slot }
    {
        Slots {
            by_account: [Slot::default(); SLOTS],
        }
    }

    // The account's slot, that of no rows where it has none.
    pub fn slot_of(&self, account: u64) -> Slot
        ensures { result ≡ slot_at self.now.by_account account }
    {
        self.by_account
            .get(account as usize)
            .copied()
            .unwrap_or_default()
    }

    // ---- made anew

    // Row i, where something of it is left, becomes the first row of its side; what is left of a source is unused money.
    fn note_row(&mut self, countable: &CountableRows, i: usize)
        requires { (i < countable.now.rows.used)
            × SlotsHold countable.now.rows.journal.now countable.now.rows.used (i + 1) self.old.by_account
            × MoneysOf (drop (i + 1) (rows_in countable.now.rows)) self.old.by_account }
        ensures { SlotsHold countable.now.rows.journal.now countable.now.rows.used i self.new.by_account
            × MoneysOf (drop i (rows_in countable.now.rows)) self.new.by_account }
    {
        let r = read_row(countable.rows.journal, i);
        let left = remaining_of(r);
        if left == 0 {
            return;
        }
        let slot = &mut self.by_account[r.account as usize];
        if is_source(r) {
            slot.source = i;
            slot.money += left;
        } else {
            slot.debit = i;
        }
    }

    // Of the used rows, whatever they held: every first row becomes the end of the used rows, with no money, and rows are taken from the
    // last to the first, so that the earlier one stays first.
    pub fn index_rows(&mut self, countable: &CountableRows)
        ensures { SlotsOf countable.now.rows.journal.now countable.now.rows.used self.new.by_account }
    {
        self.by_account.fill(Slot {
            source: countable.rows.used,
            debit: countable.rows.used,
            money: 0,
        });
        for i in (0..countable.rows.used).rev() {
            self.note_row(countable, i);
        }
    }

    // ---- brought up to the journal

    // Row i is added to the money of its account.
    fn add_row(&mut self, countable: &CountableRows, i: usize)
        requires { (i < countable.now.rows.used)
            × SlotsHold countable.now.rows.journal.now i 0 self.old.by_account
            × MoneysUpTo (rows_in countable.now.rows) i self.old.by_account }
        ensures { SlotsHold countable.now.rows.journal.now (i + 1) 0 self.new.by_account
            × MoneysUpTo (rows_in countable.now.rows) (i + 1) self.new.by_account }
    {
        let r = read_row(countable.rows.journal, i);
        let slot = &mut self.by_account[r.account as usize];
        slot.money = money_with(slot.money, r);
    }

    // The used rows from row `from` on are added to the money of their accounts.
    fn add_rows(&mut self, countable: &CountableRows, from: usize)
        requires { (from ≤ countable.now.rows.used)
            × SlotsHold countable.now.rows.journal.now from 0 self.old.by_account
            × MoneysUpTo (rows_in countable.now.rows) from self.old.by_account }
        ensures { SlotsOf countable.now.rows.journal.now countable.now.rows.used self.new.by_account }
    {
        for i in from..countable.rows.used {
            self.add_row(countable, i);
        }
    }

    // The first row of this side of the account moves forward over rows of which nothing is left.
    fn move_first(&mut self, countable: &CountableRows, account: usize, side: Side)
        requires { (account < slot_count)
            × SlotsOf countable.now.rows.journal.now countable.now.rows.used self.old.by_account }
        ensures { SlotsOf countable.now.rows.journal.now countable.now.rows.used self.new.by_account }
    {
        let slot = self.by_account[account];
        let next = next_open(countable, account as u64, side, slot.first(side));
        self.by_account[account] = slot.with_first(side, next);
    }

    // The used rows from row `from` on are added, and the first rows of this account move forward.
    pub fn update(&mut self, countable: &CountableRows, from: usize, account: u64)
        requires { (from ≤ countable.now.rows.used)
            × SlotsHold countable.now.rows.journal.now from 0 self.old.by_account
            × MoneysUpTo (rows_in countable.now.rows) from self.old.by_account }
        ensures { SlotsOf countable.now.rows.journal.now countable.now.rows.used self.new.by_account }
    {
        self.add_rows(countable, from);
        if account < SLOTS as u64 {
            self.move_first(countable, account as usize, Side::Sources);
            self.move_first(countable, account as usize, Side::Debits);
        }
    }
}
