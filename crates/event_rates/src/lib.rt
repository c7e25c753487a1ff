// The class of a vehicle and its rate (document 01, event 2; document 02, No. 1).
#![tactic(auto)]

ghost use Rattle.std.specs.Prelude.{◌≡◌, ◌≤◌};
ghost use Rattle.records.specs.Layout.{later_lists};
ghost use Rattle.rules.specs.Schedule.{class, rate};
ghost use Rattle.rules.specs.RateLists.{in_force};
ghost use Rattle.rules.specs.Tables.{lists_in};
ghost use Rattle.table_lists.specs.HeaderLists.{ListsStand};
ghost use Rattle.event_rates.specs.Classes.{class_number, class_by};
ghost use Rattle.event_rates.specs.Places.{RatesAt};

use records::layout::{HEADER_LISTS, HEADER_RATES, LIST_RATES_PLACE, LIST_WIDTH};
use records::limits::LOW_HEIGHT;
use table_lists::Header;
use tables::words::get;

// The classes, with their numbers.
#[derive(Clone, Copy, Debug, PartialEq, Eq)]
pub enum Class {
    One = 1,
    Two = 2,
    Three = 3,
}

impl From<Class> for u64 {
    ghost from_gives = { λ vehicle number. number ≡ class_number vehicle };

    fn from(class: Class) -> u64 {
        class as u64
    }
}

// The class by GEN-CLA, as the printed page has it: its cases in their order, a test each.
pub fn class_of(axles: u64, height: u64) -> Option<Class>
    ensures { class_by result ≡ class axles height }
{
    // up to 2 axles and at most 90 inches
    if (axles <= 2) & (height <= LOW_HEIGHT) {
        return Some(Class::One);
    }
    // 2 axles above 90
    if (axles == 2) & (LOW_HEIGHT < height) {
        return Some(Class::Two);
    }
    // 3 axles
    if axles == 3 {
        return Some(Class::Two);
    }
    // 4 axles
    if axles == 4 {
        return Some(Class::Two);
    }
    // 5 or more
    if 5 <= axles {
        return Some(Class::Three);
    }
    None
}

// Where the six rates stand of the list after n others.
fn rates_place(n: usize) -> usize
    requires { n ≤ later_lists }
    ensures { RatesAt n result }
{
    if n == 0 {
        return HEADER_RATES;
    }
    HEADER_LISTS + (n - 1) * LIST_WIDTH + LIST_RATES_PLACE
}

// The rate of a class in a mode 1 (tag) or 2 (plate) by the list in force on a day: the six rates stand class by class.
pub fn rate_of(header: &[i64], day: u64, class: Class, mode: u64) -> u64
    requires { ListsStand header.now × (1 ≤ mode) × (mode ≤ 2) }
    ensures { result ≡ rate (in_force (lists_in header.now) day).rates (class_number class) mode }
{
    let first = rates_place(Header { words: header }.list_on(day));
    let class = u64::from(class);
    get(header, first + (2 * (class - 1) + (mode - 1)) as usize)
}
