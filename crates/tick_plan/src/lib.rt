// The plan of a day tick, made on the tables before it writes anything: how many rows it adds, which are the fees of the tolls that will
// rise and a refund for each account that will close with money left; whether a hold ends; whether an account closes.
#![tactic(auto)]

mod fees; // fees.rt: the fee of a toll that will rise
pub mod marks; // marks.rt: marks on the blocks of rows in which a toll may rise
pub mod rows; // rows.rt: what the used rows come to, in one pass
mod refunds; // refunds.rt: the accounts that will close, and those of them with money left

ghost use Rattle.std.specs.Prelude.{◌≡◌, true, ◌+◌, List, ℤ};
ghost use Rattle.records.specs.Layout.{day_place};
ghost use Rattle.records.specs.Encoding.{word};
ghost use Rattle.rules.specs.Tables.{tables_with, book_of, sound_tables};
ghost use Rattle.tick_plan.specs.Plans.{Planned, RowsCounted, TablesCounted};
ghost use Rattle.lent.specs.Lent.{lent};

use lent::Tables;
use rows::RowCounts;
use table_lists::Header;
use tick_base::rows::CountableRows;

// How many rows the tick adds, whether a hold ends, and whether an account closes.
#[derive(Clone, Copy)]
pub struct Plan {
    pub added: usize,
    pub ending: bool,
    pub closing: bool,
}

// What the used rows come to, counted for the next day, to what was counted of no rows.
pub fn count_rows_to(t: Tables, counts: &mut RowCounts)
    requires { (sound_tables (lent t) ≡ true)
        × ((h j : List ℤ) → RowsCounted h j (word t.header.now day_place + 1) counts.old 0) }
    ensures { TablesCounted (lent t.entry) counts.new }
{
    let header = Header { words: t.header };
    let countable = CountableRows { rows: t.rows() };
    counts.count_rows(header, &countable);
}

// The same, of the tables alone.
pub fn count_rows(t: Tables) -> RowCounts
    requires { sound_tables (lent t) ≡ true }
    ensures { TablesCounted (lent t.entry) result }
{
    let mut counts = RowCounts::none(t.day() + 1);
    count_rows_to(t, &mut counts);
    counts
}

pub fn plan_tick(t: Tables, holidays: &[i64], counts: &RowCounts) -> Plan
    requires { (sound_tables (tables_with holidays.now (lent t)) ≡ true)
        × TablesCounted (lent t) counts.now }
    ensures { Planned (book_of (tables_with holidays.now (lent t.entry))) result }
{
    if !counts.any_closes(t, holidays) {
        return Plan {
            added: counts.fees,
            ending: counts.ending,
            closing: false,
        };
    }
    let refunds = counts.refunds_added(t);
    Plan {
        added: counts.fees + refunds,
        ending: counts.ending,
        closing: true,
    }
}
