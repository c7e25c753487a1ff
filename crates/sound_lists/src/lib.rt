// The clauses of soundness on the header's rate lists: the first one, the used ones of those after it, and the words after these.
#![tactic(auto)]

ghost use Rattle.std.specs.Prelude.{◌≡◌, ◌&&◌, ◌<◌, ltb};
ghost use Rattle.lists.specs.Lists.{every};
ghost use Rattle.records.specs.Layout.{later_lists};
ghost use Rattle.rules.specs.RateLists.{list_in_range, lists_fit};
ghost use Rattle.rules.specs.Tables.{first_list_in, later_list_at, lists_used, lists_in, zero_word};
ghost use Rattle.sound_lists.specs.Standing.{lists_stand};

use records::layout::{HEADER_FIRST_DAY, HEADER_LISTS, HEADER_RATES, LIST_RATES_PLACE, LIST_WIDTH};
use sound_header::header::{day_fits, rates_fit};
use table_lists::Header;
use tables::words::get;

// The first list is in range.
fn first_fits(h: Header) -> bool
    ensures { result ≡ list_in_range (first_list_in h.entry.words.now) }
{
    day_fits(get(h.words, HEADER_FIRST_DAY)) & rates_fit(h.words, HEADER_RATES)
}

// List i after the first is in range, and begins after the one before it.
fn later_fits(h: Header, i: usize, before: u64) -> bool
    requires { i < later_lists }
    ensures { result ≡ (list_in_range (later_list_at h.entry.words.now i)
        && ltb before (later_list_at h.entry.words.now i).first_day) }
{
    let day = h.later_day(i);
    let rates = rates_fit(h.words, HEADER_LISTS + i * LIST_WIDTH + LIST_RATES_PLACE);
    day_fits(day) & rates & (before < day)
}

// The first list and the used ones after it: in range, in strictly rising order of day.
fn lists_fit(h: Header, used: usize) -> bool
    requires { used ≡ lists_used h.words.now }
    ensures { result ≡ lists_fit (lists_in h.entry.words.now) }
{
    if !first_fits(h) {
        return false;
    }
    let mut before = get(h.words, HEADER_FIRST_DAY);
    for i in 0..used {
        if !later_fits(h, i, before) {
            return false;
        }
        before = h.later_day(i);
    }
    true
}

// Every word is 0.
fn all_zero(words: &[i64]) -> bool
    ensures { result ≡ every zero_word words.now }
{
    words.iter().all(|w| *w == 0)
}

// The lists are fit, and every word after the used ones is 0.
pub fn lists_stand(h: Header) -> bool
    ensures { result ≡ lists_stand h.entry.words.now }
{
    let used = h.lists_used();
    if !lists_fit(h, used) {
        return false;
    }
    all_zero(&h.words[HEADER_LISTS + used * LIST_WIDTH..])
}
