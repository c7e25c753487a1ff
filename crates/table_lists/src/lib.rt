// The rate lists of a header: how many are used, when each begins, and which one is in force on a day.
#![tactic(auto)]

ghost use Rattle.std.specs.Prelude.{◌≡◌, ◌≤◌, ◌<◌, length};
ghost use Rattle.records.specs.Layout.{header_width, later_lists};
ghost use Rattle.rules.specs.RateLists.{last_first_day};
ghost use Rattle.rules.specs.Tables.{later_list_at, lists_used, lists_in};
ghost use Rattle.table_lists.specs.HeaderLists.{ListsStand, OnDay, unbegun};

use records::layout::{HEADER_FIRST_DAY, HEADER_LISTS, LATER_LISTS, LIST_DAY_PLACE, LIST_WIDTH};
use tables::words::get;

// A header with all its words.
#[derive(Clone, Copy)]
pub struct Header<'a> {
    pub words: &'a [i64],
    pub ghost wide: { header_width ≤ length words.now },
}

impl Header<'_> {
    // The first day of list i after the first, counted from 0.
    pub fn later_day(self, i: usize) -> u64
        requires { i < later_lists }
        ensures { result ≡ (later_list_at self.entry.words.now i).first_day }
    {
        get(self.words, HEADER_LISTS + i * LIST_WIDTH + LIST_DAY_PLACE)
    }

    // How many lists after the first are used: those that have a first day.
    pub fn lists_used(self) -> usize
        ensures { result ≡ lists_used self.entry.words.now }
    {
        let mut n = 0;
        for i in 0..LATER_LISTS {
            n += usize::from(0 < self.later_day(i));
        }
        n
    }

    // The first day of the last list, where so many after the first are used.
    pub fn last_day(self, used: usize) -> u64
        requires { used ≡ lists_used self.words.now }
        ensures { result ≡ last_first_day (lists_in self.entry.words.now) }
    {
        if used == 0 {
            return get(self.words, HEADER_FIRST_DAY);
        }
        self.later_day(used - 1)
    }

    // List i after the first is unused, or begins after a day.
    fn unbegun(self, i: usize, day: u64) -> bool
        requires { i < later_lists }
        ensures { result ≡ unbegun self.entry.words.now day i }
    {
        let begins = self.later_day(i);
        (begins == 0) | (day < begins)
    }

    // The place of the list in force on a day, 0 that of the first: as many after the first have begun. Each is compared once, in order of
    // first days, until one has not begun or is unused.
    pub fn list_on(self, day: u64) -> usize
        requires { ListsStand self.words.now }
        ensures { OnDay self.entry.words.now day result }
    {
        (0..LATER_LISTS)
            .position(|i| self.unbegun(i, day))
            .unwrap_or(LATER_LISTS)
    }
}
