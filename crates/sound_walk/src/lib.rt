// The one pass of the check over the journal: each row is read once, and its kind decides once how it is tested, inserted among the
// passage numbers, counted where it is a fee, and added to the sums of its account.
#![tactic(auto)]

ghost use Rattle.std.specs.Prelude.{◌≡◌, ◌+◌, ◌<◌};
ghost use Rattle.records.specs.Codes.{kind_toll, kind_fee, kind_payment};
ghost use Rattle.sound_walk.specs.Walks.{SameArrays, Walked, Walks, Turn, Stands};

use account_sums::{SLOTS, Sums, add_debit, add_source};
use plain_rows::plain_row;
use records::Row;
use records::codes::{
    DISPUTE_HELD, KIND_CREDIT, KIND_FEE, KIND_PAYMENT, KIND_TOLL, METHOD_CHECK_RETURNED,
};
use row_tests::held_toll;
use sound_fees::count_fee;
use sound_journal::frame::Frame;
use sound_passages::passages::insert_toll;

// What is known of the rows passed, in a caller's memory, with space for as many rows.
#[derive(Drop)]
pub struct Arrays<'a> {
    pub space: usize,
    pub cells: &'a mut [u16], // the trees of their passage numbers
    pub counts: &'a mut [u16], // the fees that name each row
    pub sums: &'a mut [Sums; SLOTS], // what they come to for each account
}

impl Arrays<'_> {
    // Row i, r, a toll: false where it does not stand, or an earlier one has its passage number. As any row, it is added only once it is
    // found to stand, so the sums are of amounts that are known to be small.
    fn toll_turn(&mut self, f: &Frame, i: usize, r: Row) -> bool
        requires { Turn f.now i r × (r.kind ≡ kind_toll) × Walked f.now self.old i }
        ensures walks { Walks f.now self.new (i + 1) result }
        ensures same { SameArrays self.old self.new }
    {
        if !f.toll_passes(r) {
            return false;
        }
        if !insert_toll(f.rows.journal, self.cells, self.space, i, r.reference) {
            return false;
        }
        add_debit(self.sums, r, r.dispute == DISPUTE_HELD);
        true
    }

    // Row i, r, a fee that stands: false where the row that it names has one too many.
    fn fee_turn(&mut self, f: &Frame, i: usize, r: Row) -> bool
        requires { Stands f.now i r × (r.kind ≡ kind_fee) × Walked f.now self.old i }
        ensures walks { Walks f.now self.new (i + 1) result }
        ensures same { SameArrays self.old self.new }
    {
        let named = f.rows.numbered(r.reference);
        if !count_fee(self.counts, r.reference as usize, named) {
            return false;
        }
        add_debit(self.sums, r, held_toll(named));
        true
    }

    // Row i, r, neither a toll nor a payment: false where it does not stand, or is one fee too many.
    fn other_turn(&mut self, f: &Frame, i: usize, r: Row) -> bool
        requires { Turn f.now i r
            × (r.kind ≡ kind_toll → ⊥)
            × (r.kind ≡ kind_payment → ⊥)
            × Walked f.now self.old i }
        ensures walks { Walks f.now self.new (i + 1) result }
        ensures same { SameArrays self.old self.new }
    {
        if !f.other_passes((i + 1) as u64, r) {
            return false;
        }
        if r.kind == KIND_FEE {
            return self.fee_turn(f, i, r);
        }
        if r.kind == KIND_CREDIT {
            add_source(self.sums, r, false);
            return true;
        }
        add_debit(self.sums, r, false);
        true
    }

    // Row i.
    fn turn(&mut self, f: &Frame, i: usize) -> bool
        requires { (i < f.now.rows.used) × Walked f.now self.old i }
        ensures walks { Walks f.now self.new (i + 1) result }
        ensures same { SameArrays self.old self.new }
    {
        let r = plain_row(f.rows.journal, i);
        if r.kind == KIND_TOLL {
            return self.toll_turn(f, i, r);
        }
        if r.kind != KIND_PAYMENT {
            return self.other_turn(f, i, r);
        }
        if !f.payment_passes(r) {
            return false;
        }
        add_source(self.sums, r, r.mark == METHOD_CHECK_RETURNED);
        true
    }

    // The used rows, one after another. By a frame of its own: what is lent could change, for all that a compiler knows, at each store.
    pub fn walk(&mut self, f: &Frame) -> bool
        requires { Walked f.now self.old 0 }
        ensures walks { Walks f.now self.new f.now.rows.used result }
        ensures same { SameArrays self.old self.new }
    {
        let own = *f;
        for i in 0..own.rows.used {
            if !self.turn(&own, i) {
                return false;
            }
        }
        true
    }
}
