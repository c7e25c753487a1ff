// What the lengths and the header have shown of the tables, with which the tests on rows and accounts read them.
ghost use Rattle.std.specs.Prelude.{◌≡◌, ℕ, eqb, Some};
ghost use Rattle.std.specs.Option.{option_eq};
ghost use Rattle.records.specs.Codes.{kind_toll, kind_payment};
ghost use Rattle.rules.specs.Soundness.{account_used, names, reference_fits};
ghost use Rattle.sound_journal.specs.Bounds.{Bounds};
ghost use Rattle.sound_journal.specs.Marks.{Marked};

use records::Row;
use records::codes::{KIND_CREDIT, KIND_FEE, KIND_PAYMENT, KIND_REVERSAL, KIND_TOLL};
use records::limits::SLOT_COUNT;
use sound_header::tests::implies;
use sound_rows::row::{other_alone, toll_alone};
use sound_tolls::Term;
use table_rows::Rows;

// The accounts and the used rows of lent tables, the day, and the length of a stage.
#[derive(Clone, Copy)]
pub struct Frame<'a> {
    pub accounts: &'a [i64],
    pub count: usize, // accounts
    pub rows: Rows<'a>,
    pub term: Term,
    pub marks: &'a [bool; SLOT_COUNT], // which accounts are used, by number
    pub ghost bounds: { Bounds accounts.now count rows.used },
    pub ghost marked: { Marked accounts.now count marks.now },
}

impl Frame<'_> {
    ghost use Rattle.sound_journal.specs.Passing.{frame_accounts, frame_rows, passes_in, PassesAnywhere};

    fn account_used(&self, r: Row) -> bool
        ensures { result ≡ account_used (frame_accounts self.now) r }
    {
        if r.account >= SLOT_COUNT as u64 {
            return false;
        }
        self.marks[r.account as usize]
    }

    // The kind of the earlier row of the same account that row number n, r, refers to.
    fn named_kind(&self, n: u64, r: Row) -> Option<u64>
        ensures { (m : ℕ) → option_eq eqb result (Some m) ≡ names (frame_rows self.now) n r m }
    {
        if r.reference >= n {
            return None;
        }
        let named = self.rows.numbered(r.reference);
        if named.account != r.account {
            return None;
        }
        Some(named.kind)
    }

    fn reference_fits(&self, n: u64, r: Row) -> bool
        ensures { result ≡ reference_fits (frame_rows self.now) n r }
    {
        if r.kind == KIND_TOLL {
            return true;
        }
        if r.kind == KIND_PAYMENT {
            return true;
        }
        let named = self.named_kind(n, r);
        if r.kind == KIND_FEE {
            return (named == Some(KIND_TOLL)) | (named == Some(KIND_PAYMENT));
        }
        if r.kind == KIND_REVERSAL {
            return named == Some(KIND_PAYMENT);
        }
        implies(r.kind == KIND_CREDIT, named == Some(KIND_TOLL))
    }

    // A toll: it refers to no row.
    pub fn toll_passes(&self, r: Row) -> bool
        requires { r.kind ≡ kind_toll }
        ensures { PassesAnywhere self.now r result }
    {
        if !toll_alone(self.term, r) {
            return false;
        }
        self.account_used(r)
    }

    // A payment: nor does it.
    pub fn payment_passes(&self, r: Row) -> bool
        requires { r.kind ≡ kind_payment }
        ensures { PassesAnywhere self.now r result }
    {
        if !other_alone(self.term.today, r) {
            return false;
        }
        self.account_used(r)
    }

    // Row number n, r, which is no toll.
    pub fn other_passes(&self, n: u64, r: Row) -> bool
        requires { r.kind ≡ kind_toll → ⊥ }
        ensures { result ≡ passes_in self.now n r }
    {
        if !other_alone(self.term.today, r) {
            return false;
        }
        if !self.account_used(r) {
            return false;
        }
        self.reference_fits(n, r)
    }
}
