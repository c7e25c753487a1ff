// The check of a whole book: whether lent tables of any lengths and contents are sound, in time that grows with the rows and
// accounts.
#![tactic(auto)]

ghost use Rattle.std.specs.Prelude.{◌≡◌, ◌+◌, ◌*◌, ◌≤◌, ◌<◌};
ghost use Rattle.records.specs.Limits.{most_rows};
ghost use Rattle.rules.specs.Tables.{tables_with, sound_tables};
ghost use Rattle.soundness.specs.Book.{Stands};
ghost use Rattle.lent.specs.Lent.{lent};

use account_sums::{SLOTS, Sums};
use holidays::holidays_fit;
use lent::Tables;
use records::layout::{HEADER_SCHEDULE, STAGE_PLACE};
use records::limits::{MOST_ROWS, SLOT_COUNT};
use sound_header::header::{day_fits, lengths_fit, schedule_fits};
use sound_journal::frame::Frame;
use sound_journal::later_rows_zero;
use sound_journal::marks::mark_used;
use sound_lists::lists_stand;
use sound_passages::passages::{CELLS, ROW_CELLS};
use sound_sums::accounts::all_agree;
use sound_tolls::Term;
use sound_walk::Arrays;
use table_lists::Header;
use tables::words::get;

// A row's number counts from 1, so that there is a count more than rows.
const COUNTS: usize = MOST_ROWS + 1;

// Up to as many rows are checked with small arrays, of 10 KiB and not 80, or of 20: to clear those for the most rows would take as long as
// to check so few, or a twentieth of it.
const FEW_ROWS: usize = 1024;

const FEW_CELLS: usize = FEW_ROWS * ROW_CELLS;

const FEW_COUNTS: usize = FEW_ROWS + 1;

const MORE_ROWS: usize = 2048;

const MORE_CELLS: usize = MORE_ROWS * ROW_CELLS;

const MORE_COUNTS: usize = MORE_ROWS + 1;

// The used rows and the accounts, with arrays for so many rows: one pass over the rows, then the sums of accounts that it leaves.
fn stand_with<const ROWS: usize, const CELLS: usize, const COUNTS: usize>(f: &Frame) -> bool
    requires { (f.now.rows.used ≤ ROWS)
        × (0 < ROWS)
        × (ROWS ≤ most_rows)
        × (CELLS ≡ 4 * ROWS)
        × (COUNTS ≡ ROWS + 1) }
    ensures { Stands f.now result }
{
    let mut cells = [0u16; CELLS];
    let mut counts = [0u16; COUNTS];
    let mut sums = [Sums::default(); SLOTS];
    let mut arrays = Arrays {
        space: ROWS,
        cells: &mut cells,
        counts: &mut counts,
        sums: &mut sums,
    };
    if !arrays.walk(f) {
        return false;
    }
    all_agree(f, arrays.sums)
}

// The used rows and the accounts, once the lengths and the header are found fit.
fn book_passes(f: &Frame) -> bool
    ensures { Stands f.now result }
{
    if f.rows.used <= FEW_ROWS {
        return stand_with::<FEW_ROWS, FEW_CELLS, FEW_COUNTS>(f);
    }
    if f.rows.used <= MORE_ROWS {
        return stand_with::<MORE_ROWS, MORE_CELLS, MORE_COUNTS>(f);
    }
    stand_with::<MOST_ROWS, CELLS, COUNTS>(f)
}

// Whether the three tables that events write are sound, as those of a book without holidays.
fn three_sound(t: Tables) -> bool
    ensures { result ≡ sound_tables (lent t.entry) }
{
    if !lengths_fit(t) {
        return false;
    }
    let today = t.day();
    if !day_fits(today) {
        return false;
    }
    if !schedule_fits(t.header, HEADER_SCHEDULE) {
        return false;
    }
    if !lists_stand(Header { words: t.header }) {
        return false;
    }
    let used = t.used();
    let room = t.room();
    if used > room as u64 {
        return false;
    }
    if !later_rows_zero(t.journal, used as usize, room) {
        return false;
    }
    let term = Term {
        today,
        stage: get(t.header, HEADER_SCHEDULE + STAGE_PLACE),
    };
    let count = t.count();
    let mut marks = [false; SLOT_COUNT];
    mark_used(t.accounts, count, &mut marks);
    let f = Frame {
        accounts: t.accounts,
        count,
        rows: t.rows(),
        term,
        marks: &marks,
    };
    book_passes(&f)
}

// Whether the tables are sound, the lent list of holidays being the fourth. It takes 92 KiB of the stack, 64 for passage numbers, 16 for
// fees and 12 for sums; of at most FEW_ROWS rows only 22 are cleared.
pub fn sound(t: Tables, holidays: &[i64]) -> bool
    ensures { result ≡ sound_tables (tables_with holidays.now (lent t.entry)) }
{
    if !three_sound(t) {
        return false;
    }
    holidays_fit(holidays)
}
