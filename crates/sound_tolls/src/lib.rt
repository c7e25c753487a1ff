// The clauses of soundness on a toll's own words and days. Each test returns at once, so that a sound row costs one well-predicted branch
// a test.
#![tactic(auto)]

ghost use Rattle.std.specs.Prelude.{◌≡◌, not, ◌&&◌, ◌≤◌, ltb};
ghost use Rattle.records.specs.Limits.{final_day, longest_stage};
ghost use Rattle.rules.specs.Rows.{kind_toll, last_stage, unsettled, held_toll};
ghost use Rattle.rules.specs.Soundness.{mark_fits, toll_words_fit, row_day_fits, due_fits, hold_fits};
ghost use Rattle.sound_header.specs.Clauses.{own_words};
ghost use Rattle.records.specs.Codes.{kind_toll, last_stage};

use records::Row;
use records::codes::{DISPUTE_HELD, DISPUTE_UPHELD, LAST_STAGE};
use records::limits::{HIGHEST_PASSAGE, MOST_HELD_DAYS};
use sound_header::tests::{between, implies};

// The day of any row.
pub fn row_day_fits(today: u64, r: Row) -> bool
    ensures { result ≡ row_day_fits today r }
{
    between(1, r.day, today)
}

fn stage_fits(r: Row) -> bool
    requires { r.kind ≡ kind_toll }
    ensures { result ≡ mark_fits r }
{
    r.mark <= LAST_STAGE
}

fn toll_words_fit(r: Row) -> bool
    requires { r.kind ≡ kind_toll }
    ensures { result ≡ toll_words_fit r }
{
    if r.dispute > DISPUTE_UPHELD {
        return false;
    }
    between(1, r.reference, HIGHEST_PASSAGE)
}

// An unsettled unheld toll under the last stage.
fn running(r: Row) -> bool
    requires { r.kind ≡ kind_toll }
    ensures { result ≡ (unsettled r && not (held_toll r) && ltb r.mark last_stage) }
{
    if r.settled >= r.amount {
        return false;
    }
    if r.dispute == DISPUTE_HELD {
        return false;
    }
    r.mark < LAST_STAGE
}

// The day and the length of a stage, within their limits.
// Kept: that a row is a toll is a clause of its tests and no type, since one caller alone has such a row, whose kind it has just told.
#[derive(Clone, Copy)]
pub struct Term {
    pub today: u64,
    pub stage: u64, // days
    pub ghost within: { (today ≤ final_day) × (stage ≤ longest_stage) },
}

impl Term {
    // A toll due after today is due late enough, running or not: told first, since due days rise with the rows, and nearly so.
    fn due_fits(self, r: Row) -> bool
        requires { r.kind ≡ kind_toll }
        ensures { result ≡ due_fits self.today self.stage r }
    {
        if r.due > self.today + self.stage {
            return false;
        }
        if self.today < r.due {
            return true;
        }
        if running(r) {
            return false;
        }
        1 <= r.due
    }

    // A hold that starts after today is met before the sums, so that none of them wraps. The last day of a hold is its 29th after the
    // start: the tick to the 30th ends it.
    fn hold_fits(self, r: Row) -> bool
        requires { r.kind ≡ kind_toll }
        ensures { result ≡ hold_fits self.today self.stage r }
    {
        if r.dispute != DISPUTE_HELD {
            return r.hold == 0;
        }
        if r.hold >= self.today + 1 {
            return false;
        }
        let started = (1 <= r.hold) & (self.today <= r.hold + MOST_HELD_DAYS);
        let after = implies(r.mark < LAST_STAGE, r.hold < r.due);
        started & (r.settled < r.amount) & (r.due <= r.hold + self.stage) & after
    }

    pub fn toll_fits(self, r: Row) -> bool
        requires { r.kind ≡ kind_toll }
        ensures { result ≡ own_words self.today self.stage r }
    {
        if !stage_fits(r) {
            return false;
        }
        if !toll_words_fit(r) {
            return false;
        }
        if !row_day_fits(self.today, r) {
            return false;
        }
        if !self.due_fits(r) {
            return false;
        }
        self.hold_fits(r)
    }
}
