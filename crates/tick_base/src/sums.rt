// What remains of each account's sources and debits, in one pass.
ghost use Rattle.std.specs.Prelude.{◌+◌, ◌<◌, List, ℤ};
ghost use Rattle.tick_base.specs.Remainders.{Remainders};

use super::rows::CountableRows;
use account_sums::{SLOTS, add, part};
use plain_rows::{small_account, small_amount, small_settled};
use row_tests::is_source_kind;
use table_rows::kind_at;

// By account number what remains of the account's sources, its money, and of its debits, what it owes. 4 KiB of a caller's stack.
// Kept: two arrays, since no change may lose speed that was reached: as one of pairs, a tick on 8,192 rows takes 0.55 of plain C in place
// of 0.51, and a batch of 4,096 events 0.27 in place of 0.26.
#[derive(Drop)]
pub struct Remains {
    pub money: [u64; SLOTS],
    pub owed: [u64; SLOTS],
}

impl Remains {
    // Of no rows.
    pub fn none() -> Remains
        ensures { (t : List ℤ) → Remainders t result 0 }
    {
        Remains {
            money: [0; SLOTS],
            owed: [0; SLOTS],
        }
    }

    // Row i, to its account's money or to what the account owes.
    pub fn add_row(&mut self, countable: &CountableRows, i: usize)
        requires { (i < countable.now.rows.used)
            × Remainders countable.now.rows.journal.now self.old i }
        ensures { Remainders countable.now.rows.journal.now self.new (i + 1) }
    {
        let a = small_account(countable.rows.journal, i) as usize;
        let left = small_amount(countable.rows.journal, i)
            - small_settled(countable.rows.journal, i);
        let source = is_source_kind(kind_at(countable.rows.journal, i));
        add(&mut self.money, a, part(source, left));
        add(&mut self.owed, a, part(!source, left));
    }

    // The used rows, to what was of no rows.
    pub fn add_rows(&mut self, countable: &CountableRows)
        requires { Remainders countable.now.rows.journal.now self.old 0 }
        ensures { Remainders countable.now.rows.journal.now self.new countable.now.rows.used }
    {
        for i in 0..countable.rows.used {
            self.add_row(countable, i);
        }
    }

    // Of the used rows. Who keeps it in a frame of its own begins with `none` and adds the rows there: a value of 4 KiB that is returned
    // is copied, by `memcpy`, which the C library alone has.
    pub fn of_rows(countable: &CountableRows) -> Remains
        ensures { Remainders countable.now.rows.journal.now result countable.now.rows.used }
    {
        let mut sums = Remains::none();
        sums.add_rows(countable);
        sums
    }
}
