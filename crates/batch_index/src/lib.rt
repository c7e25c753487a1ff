// The index that a batch keeps of the journal, so that no event searches all rows: the trees of passage numbers, and a slot for each
// account.
#![tactic(auto)]

mod slots; // slots.rt: from which row on something of each account's sources and debits can be left, and its unused money

ghost use Rattle.std.specs.Prelude.{◌≡◌, true, ◌≤◌};
ghost use Rattle.rules.specs.Tables.{rows_used, sound_tables};
ghost use Rattle.lent.specs.Lent.{lent};
ghost use Rattle.records.specs.Limits.{most_rows};
ghost use Rattle.sound_passages.specs.Trees.{TreesOf};
ghost use Rattle.event_lookups.specs.Lookups.{LooksUp};
ghost use Rattle.batch_index.specs.Index.{Indexed, IndexedBefore, Empty, Indexable, may_pay_held};

use balances::{is_low, may_topup};
use event_lookups::Lookup;
use lent::Tables;
use records::Instruction;
use records::codes::{EVENT_DECISION, EVENT_TICK, EVENT_TOLL, EVENT_TOPUP_RESULT};
use records::limits::MOST_ROWS;
use slots::Slots;
use sound_passages::passages::{CELLS, cell_for, insert};
use table_rows::Rows;
use tick_base::rows::CountableRows;

// 70 KiB of a caller's stack: it is made once for a batch, and lent.
#[derive(Drop)]
pub struct Index {
    cells: [u16; CELLS],
    slots: Slots,
}

// The passage numbers of the used rows from row `from` on go into the trees of the rows before them.
fn index_passages(rows: &Rows, from: usize, cells: &mut [u16; CELLS])
    requires { Indexable rows.now.journal.now rows.now.used
        × (from ≤ rows.now.used)
        × TreesOf most_rows rows.now.journal.now cells.old from }
    ensures { TreesOf most_rows rows.now.journal.now cells.new rows.now.used }
{
    for i in from..rows.used {
        insert(rows.journal, cells, MOST_ROWS, i);
    }
}

impl Index {
    // Of no rows: all 0.
    pub fn new() -> Index
        ensures { Empty result }
    {
        Index {
            cells: [0; CELLS],
            slots: Slots::none(),
        }
    }

    // The index of sound tables, made in one of no rows.
    pub fn start(&mut self, t: Tables)
        requires { (sound_tables (lent t) ≡ true) × Empty self.old }
        ensures { Indexed (lent t.entry) self.new }
    {
        let countable = CountableRows { rows: t.rows() };
        index_passages(&countable.rows, 0, &mut self.cells);
        self.slots.index_rows(&countable);
    }

    // What the index has for an event, without a pass over the journal.
    pub fn look_up(&self, t: Tables, e: Instruction) -> Lookup
        requires { (sound_tables (lent t) ≡ true)
            × Indexed (lent t) self.now }
        ensures { LooksUp (lent t.entry) e result }
    {
        let slot = self.slots.slot_of(e.account);
        let mut found = Lookup {
            source: slot.source,
            debit: slot.debit,
            ..Lookup::default()
        };
        if e.kind == EVENT_TOLL {
            let rows = t.rows();
            found.duplicate = cell_for(&rows, &self.cells, MOST_ROWS, e.a).is_none();
            return found;
        }
        if e.kind == EVENT_TOPUP_RESULT {
            let x = t.account(e.account);
            found.due = may_topup(x, t.day()) & is_low(x, slot.money);
        }
        found
    }

    // Whether unused money may have paid what was held before the event.
    fn may_pay_held(&self, e: Instruction) -> bool
        ensures { result ≡ may_pay_held e self.now.slots.by_account }
    {
        let money = self.slots.slot_of(e.account).money;
        (e.kind == EVENT_TICK) | ((e.kind == EVENT_DECISION) & (0 < money))
    }

    // The index after an event that found `before` rows: the rows that it added go in. Where held rows may have been paid, which the
    // added rows do not tell, the slots are made anew, in the time of the tick or of the settlement that paid them.
    pub fn update(&mut self, t: Tables, before: usize, e: Instruction)
        requires { (sound_tables (lent t) ≡ true)
            × (before ≤ rows_used (lent t))
            × IndexedBefore (lent t) before e self.old }
        ensures { Indexed (lent t.entry) self.new }
    {
        let countable = CountableRows { rows: t.rows() };
        index_passages(&countable.rows, before, &mut self.cells);
        if self.may_pay_held(e) {
            self.slots.index_rows(&countable);
            return;
        }
        self.slots.update(&countable, before, e.account);
    }
}
