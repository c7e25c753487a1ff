// A row of the journal, read and written as a value.
#![tactic(auto)]

ghost use Rattle.std.specs.Prelude.{◌≡◌, ◌+◌, ◌*◌, ◌^◌, ◌≤◌, ◌<◌, length};
ghost use Rattle.records.specs.Layout.{row_width};
ghost use Rattle.records.specs.Encoding.{row_at, StorableRow};
ghost use Rattle.rules.specs.Rows.{with_settled, row_no};
ghost use Rattle.tables.specs.Changes.{RowIn, RowChanged};
ghost use Rattle.table_rows.specs.Reads.{RowBy};

use records::Row;
use records::layout::{
    ACCOUNT_PLACE, AMOUNT_PLACE, DISPUTE_PLACE, DUE_PLACE, HOLD_PLACE, KIND_PLACE, MARK_PLACE,
    REFERENCE_PLACE, ROW_DAY_PLACE, ROW_WIDTH, SETTLED_PLACE,
};
use records::words::natural;
use tables::words::{get, put, put_words};

// Row i, counted from 0, each word by `read`.
pub fn row_by<F: Fn(i64) -> u64>(journal: &[i64], i: usize, read: F) -> Row
    requires { RowIn journal.now i × F.IsAlwaysCallable read }
    ensures { RowBy (F.post read) journal.now (i * row_width) result }
{
    let p = i * ROW_WIDTH;
    Row {
        kind: read(journal[p + KIND_PLACE]),
        account: read(journal[p + ACCOUNT_PLACE]),
        day: read(journal[p + ROW_DAY_PLACE]),
        amount: read(journal[p + AMOUNT_PLACE]),
        settled: read(journal[p + SETTLED_PLACE]),
        mark: read(journal[p + MARK_PLACE]),
        due: read(journal[p + DUE_PLACE]),
        dispute: read(journal[p + DISPUTE_PLACE]),
        hold: read(journal[p + HOLD_PLACE]),
        reference: read(journal[p + REFERENCE_PLACE]),
    }
}

// Row i, counted from 0.
// Kept, here and below: a journal and a row's index, and no method of `Rows`, since who writes a journal reads its rows too.
pub fn read_row(journal: &[i64], i: usize) -> Row
    requires { RowIn journal.now i }
    ensures { result ≡ row_at journal.now i }
{
    row_by(journal, i, natural)
}

// One word of row i, where a pass reads no other, or this one first.
// Kept: five functions of one line; one over a const place would say less at a call and in its contract than `due_at` does.
pub fn kind_at(journal: &[i64], i: usize) -> u64
    requires { RowIn journal.now i }
    ensures { result ≡ (row_at journal.now i).kind }
{
    get(journal, i * ROW_WIDTH + KIND_PLACE)
}

pub fn account_at(journal: &[i64], i: usize) -> u64
    requires { RowIn journal.now i }
    ensures { result ≡ (row_at journal.now i).account }
{
    get(journal, i * ROW_WIDTH + ACCOUNT_PLACE)
}

pub fn due_at(journal: &[i64], i: usize) -> u64
    requires { RowIn journal.now i }
    ensures { result ≡ (row_at journal.now i).due }
{
    get(journal, i * ROW_WIDTH + DUE_PLACE)
}

pub fn dispute_at(journal: &[i64], i: usize) -> u64
    requires { RowIn journal.now i }
    ensures { result ≡ (row_at journal.now i).dispute }
{
    get(journal, i * ROW_WIDTH + DISPUTE_PLACE)
}

pub fn reference_at(journal: &[i64], i: usize) -> u64
    requires { RowIn journal.now i }
    ensures { result ≡ (row_at journal.now i).reference }
{
    get(journal, i * ROW_WIDTH + REFERENCE_PLACE)
}

// The used rows of a journal that is lent to be read.
#[derive(Clone, Copy)]
pub struct Rows<'a> {
    pub journal: &'a [i64],
    pub used: usize,
    pub ghost within: { used * row_width ≤ length journal.now },
}

impl Rows<'_> {
    ghost use Rattle.table_rows.specs.UsedRows.{rows_in};

    // Row number n, counted from 1; blank where there is none.
    // Kept: the definitions' row is total too (Rows.row_no), and a blank row passes no test, so no caller asks whether there is one.
    pub fn numbered(&self, n: u64) -> Row
        ensures { result ≡ row_no (rows_in self.now) n }
    {
        if n == 0 {
            return Row::default();
        }
        if n > self.used as u64 {
            return Row::default();
        }
        read_row(self.journal, (n - 1) as usize)
    }
}

// Row i becomes r, its words in the layout's order.
pub fn write_row(journal: &mut [i64], i: usize, r: Row)
    requires { RowIn journal.old i × StorableRow r }
    ensures { RowChanged journal.old journal.new i r }
{
    let words = [
        r.kind,
        r.account,
        r.day,
        r.amount,
        r.settled,
        r.mark,
        r.due,
        r.dispute,
        r.hold,
        r.reference,
    ];
    put_words(journal, i * ROW_WIDTH, words);
}

// Row i has v settled: one word, since settlement writes no other.
pub fn put_settled(journal: &mut [i64], i: usize, v: u64)
    requires { RowIn journal.old i × (v < 2 ^ 63) }
    ensures { RowChanged journal.old journal.new i
        (with_settled v (row_at journal.old i)) }
{
    put(journal, i * ROW_WIDTH + SETTLED_PLACE, v);
}
