// What the used rows come to, in one pass.
ghost use Rattle.std.specs.Prelude.{◌+◌, ◌<◌, List, ℤ};
ghost use Rattle.tick_plan.specs.Plans.{HeldOpen, RowsCounted};

use super::fees::brings_fee;
use super::marks::{BLOCKS, mark_due};
use account_sums::SLOTS;
use plain_rows::{small_amount, small_settled};
use row_tests::held_toll;
use table_lists::Header;
use tick_base::days::hold_ends;
use tick_base::holds::{count_held, ends_at};
use tick_base::rows::CountableRows;
use tick_base::sums::Remains;

// For the day `today`: what remains of each account's rows, how many of its tolls stay held, how many holds of it end, how many fee rows
// the tick adds, whether a hold ends, and which blocks of rows have a toll that may rise. 9 KiB of a caller's stack.
#[derive(Drop)]
pub struct RowCounts {
    pub today: u64,
    pub remains: Remains,
    // Kept: arrays of their own, since `count_held` counts into an array of numbers.
    pub stays: [u64; SLOTS],
    pub ends: [u64; SLOTS],
    pub fees: usize,
    pub ending: bool,
    pub marks: [u64; BLOCKS],
}

impl RowCounts {
    // Of no rows.
    pub fn none(today: u64) -> RowCounts
        ensures { (h t : List ℤ) → RowsCounted h t today result 0 }
    {
        RowCounts {
            today,
            remains: Remains::none(),
            stays: [0; SLOTS],
            ends: [0; SLOTS],
            fees: 0,
            ending: false,
            marks: [0; BLOCKS],
        }
    }

    // Row i, to each sum and count.
    fn add_row(&mut self, header: Header, countable: &CountableRows, i: usize)
        requires { (i < countable.now.rows.used)
            × RowsCounted header.words.now countable.now.rows.journal.now self.old.today self.old i }
        ensures { RowsCounted header.entry.words.now countable.now.rows.journal.now self.old.today self.new (i + 1) }
    {
        let today = self.today;
        self.remains.add_row(countable, i);
        count_held(
            countable,
            i,
            &mut self.stays,
            |r| held_toll(r) & !hold_ends(r, today),
        );
        count_held(countable, i, &mut self.ends, |r| hold_ends(r, today));
        self.fees += usize::from(brings_fee(header, countable.rows.journal, i, today));
        self.ending |= ends_at(countable.rows.journal, i, today);
        mark_due(countable.rows.journal, i, today, &mut self.marks);
    }

    // Row i; one of which nothing is left comes to nothing, and most are such.
    fn count_row(&mut self, header: Header, countable: &CountableRows, i: usize)
        requires { (i < countable.now.rows.used)
            × HeldOpen countable.now.rows.journal.now countable.now.rows.used
            × RowsCounted header.words.now countable.now.rows.journal.now self.old.today self.old i }
        ensures { RowsCounted header.entry.words.now countable.now.rows.journal.now self.old.today self.new (i + 1) }
    {
        let settled = small_settled(countable.rows.journal, i);
        if settled == small_amount(countable.rows.journal, i) {
            return;
        }
        self.add_row(header, countable, i);
    }

    // The used rows, of whose tolls none is held that is settled, to what was of no rows.
    pub fn count_rows(&mut self, header: Header, countable: &CountableRows)
        requires { HeldOpen countable.now.rows.journal.now countable.now.rows.used
            × RowsCounted header.words.now countable.now.rows.journal.now self.old.today self.old 0 }
        ensures { RowsCounted header.entry.words.now countable.now.rows.journal.now self.old.today self.new countable.now.rows.used }
    {
        for i in 0..countable.rows.used {
            self.count_row(header, countable, i);
        }
    }

    // Of the used rows, likewise. Who keeps it in a frame of its own begins with `none` and counts the rows there: a value of 9 KiB that
    // is returned is copied.
    pub fn of_rows(header: Header, countable: &CountableRows, today: u64) -> RowCounts
        requires { HeldOpen countable.now.rows.journal.now countable.now.rows.used }
        ensures { RowsCounted header.entry.words.now countable.now.rows.journal.now today result countable.now.rows.used }
    {
        let mut counts = RowCounts::none(today);
        counts.count_rows(header, countable);
        counts
    }
}
