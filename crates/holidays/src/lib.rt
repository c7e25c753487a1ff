// The lent list of holidays (document 02, No. 6): whether it is fit, and whether a day is one on which the bank works.
#![tactic(auto)]

ghost use Rattle.std.specs.Prelude.{◌≡◌, ◌||◌, true, map};
ghost use Rattle.records.specs.Encoding.{nat_of};
ghost use Rattle.rules.specs.BusinessDays.{saturday, sunday, holiday, business_day, holidays_fit};

use records::limits::{FINAL_DAY, MOST_HOLIDAYS, WEEK_DAYS};
use tables::words::get;

const SATURDAY: u64 = 1;

const SUNDAY: u64 = 2;

// At most 400 days, each 1 to 36,525, strictly rising: each at least `least`, which is day 1 and then the day after the one before it.
pub fn holidays_fit(holidays: &[i64]) -> bool
    ensures { result ≡ holidays_fit (map nat_of holidays.now) }
{
    if holidays.len() > MOST_HOLIDAYS {
        return false;
    }
    let mut least = 1;
    for i in 0..holidays.len() {
        let day = get(holidays, i);
        if (day < least) | (day > FINAL_DAY) {
            return false;
        }
        least = day + 1;
    }
    true
}

// Whether the day is listed: it lies from place `from` on and before place `to` if anywhere, and each turn leaves out half of these.
fn is_listed(holidays: &[i64], day: u64) -> bool
    requires { holidays_fit (map nat_of holidays.now) ≡ true }
    ensures { result ≡ holiday (map nat_of holidays.now) day }
{
    let mut from = 0;
    let mut to = holidays.len();
    while from < to {
        let middle = from + (to - from) / 2;
        let listed = get(holidays, middle);
        if listed == day {
            return true;
        }
        if listed < day {
            from = middle + 1;
        } else {
            to = middle;
        }
    }
    false
}

// A Saturday or a Sunday.
fn is_weekend(day: u64) -> bool
    ensures { result ≡ saturday day || sunday day }
{
    let of_week = day % WEEK_DAYS;
    (of_week == SATURDAY) | (of_week == SUNDAY)
}

// Whether the day is neither a Saturday, nor a Sunday, nor listed.
pub fn is_business_day(holidays: &[i64], day: u64) -> bool
    requires { holidays_fit (map nat_of holidays.now) ≡ true }
    ensures { result ≡ business_day (map nat_of holidays.now) day }
{
    if is_weekend(day) {
        return false;
    }
    !is_listed(holidays, day)
}
