// The fourth step of a day tick: tolls due today rise a stage, and from stage 2 a nonzero fee row naming each is added.
#![tactic(auto)]

ghost use Rattle.std.specs.Prelude.{◌≡◌, false, ◌+◌, ◌-◌, ◌^◌, ◌≤◌, ◌<◌, length};
ghost use Rattle.lists.specs.Lists.{count};
ghost use Rattle.records.specs.Layout.{day_place};
ghost use Rattle.records.specs.Encoding.{word, row_at};
ghost use Rattle.rules.specs.Rows.{with_mark, with_due};
ghost use Rattle.rules.specs.Tick.{rises, raise_tolls};
ghost use Rattle.rules.specs.Tables.{book_of, room_in, rows_used, three_tables};
ghost use Rattle.posting.specs.Written.{Written};
ghost use Rattle.tick_base.specs.Midway.{Midway};
ghost use Rattle.tick_plan.specs.Marks.{Marked};
ghost use Rattle.tick_raise.specs.Raising.{Raisable, RowRaised};

use lent::Tables;
use posting::rows::{add_row, row_naming};
use records::Row;
use records::codes::KIND_FEE;
use records::layout::{HEADER_SCHEDULE, STAGE_PLACE};
use table_lists::Header;
use table_rows::{due_at, read_row, write_row};
use tables::words::get;
use tick_base::stages::{fee_of_stage, is_rising};
use tick_plan::marks::{BLOCK_ROWS, BLOCKS};

// The toll a stage up, due a stage length later.
fn raised(r: Row, days: u64) -> Row
    requires { (r.mark + 1 < 2 ^ 63) × (r.due + days < 2 ^ 63) }
    ensures { result ≡ with_due (r.due + days) (with_mark (r.mark + 1) r) }
{
    Row {
        mark: r.mark + 1,
        due: r.due + days,
        ..r
    }
}

// Row i, if it rises, and its fee. The result is whether it does. Few rows are due today, so the due day is read first and alone.
fn raise_row(header: &mut [i64], journal: &mut [i64], i: usize, today: u64) -> bool
    requires { Raisable header.old journal.old i today }
    ensures { RowRaised header.old header.new journal.old journal.new i today
        result }
{
    if due_at(journal, i) != today {
        return false;
    }
    let r = read_row(journal, i);
    if !is_rising(r, today) {
        return false;
    }
    let up = raised(r, get(header, HEADER_SCHEDULE + STAGE_PLACE));
    write_row(journal, i, up);
    let fee = fee_of_stage(Header { words: header }, up.mark);
    if fee != 0 {
        let row = row_naming(KIND_FEE, r.account, today, fee, i as u64 + 1);
        add_row(header, journal, row);
    }
    true
}

// The same of a row whose block has this mark, 0 for none: no toll of one that has none rises.
fn raise_marked(header: &mut [i64], journal: &mut [i64], i: usize, today: u64, mark: u64) -> bool
    requires { Raisable header.old journal.old i today
        × (mark ≡ 0 → rises today (row_at journal.old i) ≡ false) }
    ensures { RowRaised header.old header.new journal.old journal.new i today
        result }
{
    if mark == 0 {
        return false;
    }
    raise_row(header, journal, i, today)
}

// The tolls due today are raised, in row order, in the blocks of rows that are marked. The result is how many.
pub fn raise_tolls(
    header: &mut [i64],
    accounts: &[i64],
    journal: &mut [i64],
    marks: &[u64; BLOCKS],
) -> u64
    requires { Midway (word header.old day_place - 1) (three_tables header.old accounts.now journal.old)
        × (length (raise_tolls (book_of (three_tables header.old accounts.now journal.old))).rows
        ≤ room_in (three_tables header.old accounts.now journal.old))
        × Marked (word header.old day_place) journal.old marks.now (rows_used (three_tables header.old accounts.now journal.old)) }
    ensures raised { result ≡ count (rises (word header.old day_place)) (book_of (three_tables header.old accounts.now journal.old)).rows }
    ensures written { Written (three_tables header.old accounts.now journal.old)
        (three_tables header.new accounts.now journal.new)
        (raise_tolls (book_of (three_tables header.old accounts.now journal.old))) }
{
    let t = Tables {
        header,
        accounts,
        journal,
    };
    let today = t.day();
    let used = t.used() as usize;
    let mut n = 0;
    for i in 0..used {
        let mark = marks[i / BLOCK_ROWS];
        n += u64::from(raise_marked(header, journal, i, today, mark));
    }
    n
}
