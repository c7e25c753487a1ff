// The Gregorian date of a day number: day 1 is 2000-01-01, day 36,525 is 2099-12-31. It uses its table of month starts and no other crate.
#![tactic(auto)]

mod table;

ghost use Rattle.std.specs.Prelude.{◌≡◌, ◌≤◌, ◌<◌};
ghost use Rattle.dates.specs.Gregorian.{month_start, date_of, InMonth, Near};

use table::MONTH_STARTS;

#[derive(Clone, Copy)]
pub struct Date {
    pub year: u64,
    pub month: u64,
    pub day: u64,
}

// The day number of the first of month number m; month number 0 is January 2000.
fn month_start(m: u64) -> u64
    requires { m < 1201 }
    ensures { result ≡ month_start m }
{
    u64::from(MONTH_STARTS[m as usize])
}

// The month whose first is nearest, by the Gregorian mean of 4,800 months in 146,097 days: the day's own month or the one after.
// The 15 days, half a month, leave room on both sides, since month starts are off the mean by a few days only.
fn estimate(day: u64) -> u64
    requires { (1 ≤ day) × (day ≤ 36525) }
    ensures { Near result day }
{
    (day + 15) * 4800 / 146097
}

// The month that the day lies in: one look at the table decides what the estimate leaves open.
fn month_of(day: u64) -> u64
    requires { (1 ≤ day) × (day ≤ 36525) }
    ensures { InMonth result day }
{
    let next = estimate(day);
    if day < month_start(next) {
        next - 1
    } else {
        next
    }
}

// The date of a day number.
pub fn date_of(day: u64) -> Date
    requires { (1 ≤ day) × (day ≤ 36525) }
    ensures { result ≡ date_of day }
{
    let m = month_of(day);
    Date {
        year: 2000 + m / 12,
        month: m % 12 + 1,
        day: day - month_start(m) + 1,
    }
}
