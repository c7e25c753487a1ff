// The lengths of the tables and the header's words.
ghost use Rattle.std.specs.Prelude.{◌≡◌, ◌+◌, ◌<◌, length, leb};
ghost use Rattle.lists.specs.Tests.{◌from◌to◌};
ghost use Rattle.records.specs.Encoding.{word};
ghost use Rattle.records.specs.Limits.{highest_fee, highest_rate};
ghost use Rattle.rules.specs.Opening.{day_fits, sizes_fit};
ghost use Rattle.rules.specs.Schedule.{rates_fit, schedule_fits};
ghost use Rattle.rules.specs.Tables.{schedule_from, rates_from, lengths_fit};
ghost use Rattle.sound_header.specs.Clauses.{ScheduleIn, RatesIn};
ghost use Rattle.lent.specs.Lent.{lent};

use super::tests::between;
use lent::Tables;
use records::layout::{
    ACCOUNT_WIDTH, FEE2_PLACE, FEE3_PLACE, FEE4_PLACE, HEADER_WIDTH, PLATE1_PLACE, PLATE2_PLACE,
    PLATE3_PLACE, ROW_WIDTH, STAGE_PLACE, TAG1_PLACE, TAG2_PLACE, TAG3_PLACE,
};
use records::limits::{
    FINAL_DAY, HIGHEST_FEE, HIGHEST_RATE, LONGEST_STAGE, MOST_ACCOUNTS, MOST_ROWS,
};
use tables::words::get;

pub fn day_fits(day: u64) -> bool
    ensures { result ≡ day_fits day }
{
    between(1, day, FINAL_DAY)
}

pub fn sizes_fit(count: usize, room: usize) -> bool
    ensures { result ≡ sizes_fit count room }
{
    between(1, count as u64, MOST_ACCOUNTS as u64) & between(1, room as u64, MOST_ROWS as u64)
}

// "The lengths are exactly those above": no word over, and neither too few nor too many records.
pub fn lengths_fit(t: Tables) -> bool
    ensures { result ≡ lengths_fit (lent t.entry) }
{
    let whole = (t.header.len() == HEADER_WIDTH)
        & (t.accounts.len() % ACCOUNT_WIDTH == 0)
        & (t.journal.len() % ROW_WIDTH == 0);
    whole & sizes_fit(t.count(), t.room())
}

fn rate_fits(t: &[i64], i: usize) -> bool
    requires { i < length t.now }
    ensures { result ≡ word t.now i from 1 to highest_rate }
{
    between(1, get(t, i), HIGHEST_RATE)
}

fn fee_fits(t: &[i64], i: usize) -> bool
    requires { i < length t.now }
    ensures { result ≡ leb (word t.now i) highest_fee }
{
    get(t, i) <= HIGHEST_FEE
}

// The six rates whose words start at place p: in the header, in a list after the first, and in the opening's arguments.
pub fn rates_fit(t: &[i64], p: usize) -> bool
    requires { RatesIn t.now p }
    ensures { result ≡ rates_fit (rates_from t.now p) }
{
    let class1 = rate_fits(t, p + TAG1_PLACE) & rate_fits(t, p + PLATE1_PLACE);
    let class2 = class1 & rate_fits(t, p + TAG2_PLACE) & rate_fits(t, p + PLATE2_PLACE);
    class2 & rate_fits(t, p + TAG3_PLACE) & rate_fits(t, p + PLATE3_PLACE)
}

// The schedule whose four words start at place p: in the header, and in the opening's arguments.
pub fn schedule_fits(t: &[i64], p: usize) -> bool
    requires { ScheduleIn t.now p }
    ensures { result ≡ schedule_fits (schedule_from t.now p) }
{
    let stage = between(1, get(t, p + STAGE_PLACE), LONGEST_STAGE);
    stage & fee_fits(t, p + FEE2_PLACE) & fee_fits(t, p + FEE3_PLACE) & fee_fits(t, p + FEE4_PLACE)
}
