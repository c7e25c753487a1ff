// Opening: lent tables of any contents become the book of a first day, a schedule and six rates, all else 0; the lent holidays are its own.
#![tactic(auto)]

ghost use Rattle.std.specs.Prelude.{◌≡◌, true, [], pos, ◌-◌, ◌<◌, length};
ghost use Rattle.records.specs.Layout.{header_width};
ghost use Rattle.records.specs.Outcomes.{number_by};
ghost use Rattle.lists.specs.Tests.{first};
ghost use Rattle.rules.specs.Tables.{Tables, tables_with, header_words};
ghost use Rattle.call_rules.specs.Calls.{opening_fits, opening_refusals, opened_book, open_call, Gives};
ghost use Rattle.lent.specs.Lent.{lent_mut, SameTables};

use holidays::holidays_fit;
use lent::TablesMut;
use records::layout::{
    DAY_PLACE, FIRST_DAY_PLACE, HEADER_FIRST_DAY, HEADER_LISTS, HEADER_SCHEDULE, OPENING_RATES,
    OPENING_SCHEDULE, OPENING_WIDTH, USED_PLACE,
};
use records::refusals::Refusal;
use sound_header::header::{day_fits, lengths_fit, rates_fit, schedule_fits};
use tables::words::get;

// The first day, the schedule and six rates: eleven words, each in its range.
fn opening_fits(schedule: &[i64]) -> bool
    ensures { result ≡ opening_fits schedule.now }
{
    if schedule.len() != OPENING_WIDTH {
        return false;
    }
    let day = day_fits(get(schedule, FIRST_DAY_PLACE));
    day & schedule_fits(schedule, OPENING_SCHEDULE) & rates_fit(schedule, OPENING_RATES)
}

// The header: the first day, no rows, the words of schedule and rates from their places in the opening to their places here, the first day
// again as that of the first list, and no list after it.
fn write_header(header: &mut [i64], schedule: &[i64])
    requires { (length header.old ≡ header_width) × (opening_fits schedule.now ≡ true) }
    ensures { (t : Tables) → header.new ≡ header_words (opened_book t schedule.now) }
{
    header[DAY_PLACE] = schedule[FIRST_DAY_PLACE];
    header[USED_PLACE] = 0;
    header[HEADER_SCHEDULE..HEADER_FIRST_DAY].copy_from_slice(&schedule[OPENING_SCHEDULE..]);
    header[HEADER_FIRST_DAY] = schedule[FIRST_DAY_PLACE];
    header[HEADER_LISTS..].fill(0);
}

// Why an opening is refused, if it is: the lengths are unfit, or the words given are, or the lent list of holidays.
fn check_opening(t: &TablesMut, holidays: &[i64], schedule: &[i64]) -> Result<(), Refusal>
    ensures { number_by result ≡ first (opening_refusals (tables_with holidays.now (lent_mut t.now))
        schedule.now) }
{
    if !lengths_fit(t.read()) {
        return Err(Refusal::Unsound);
    }
    if !opening_fits(schedule) {
        return Err(Refusal::Malformed);
    }
    if !holidays_fit(holidays) {
        return Err(Refusal::Holidays);
    }
    Ok(())
}

// Opens the book; refused, it writes nothing. The list of holidays is judged, and stays as it was lent.
pub fn open_book(t: &mut TablesMut, holidays: &[i64], schedule: &[i64]) -> Result<(), Refusal>
    ensures same { SameTables t.old t.new }
    ensures gives { Gives (open_call (tables_with holidays.now (lent_mut t.old))
        schedule.now)
        (pos (number_by result))
        (tables_with holidays.now (lent_mut t.new))
        [] }
{
    check_opening(t, holidays, schedule)?;
    write_header(t.header, schedule);
    t.accounts.fill(0);
    t.journal.fill(0);
    Ok(())
}
