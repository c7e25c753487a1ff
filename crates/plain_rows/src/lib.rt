// A row's or an account's words read for a pass over a whole table: as they are, where each is tested against a limit that no negative
// word meets, and as a plain number, where it is known to be one. Both cost nothing beside the read.
#![tactic(auto)]

pub mod accounts; // accounts.rt: an account's words

ghost use Rattle.std.specs.Prelude.{◌≡◌, ◌^◌, ◌<◌, length};
ghost use Rattle.records.specs.Encoding.{nat_of, word, row_at};
ghost use Rattle.tables.specs.Changes.{RowIn};
ghost use Rattle.plain_rows.specs.Alike.{Alike, AlikeRow};

use records::Row;
use records::layout::{ACCOUNT_PLACE, AMOUNT_PLACE, ROW_WIDTH, SETTLED_PLACE};
use table_rows::row_by;

// A word's bits as a number: from 2^63 on where it is negative. The same bits, so nothing is computed.
fn bits(x: i64) -> u64
    ensures { Alike result (nat_of x) }
{
    x.cast_unsigned()
}

// Row i, with its words as they are.
pub fn plain_row(journal: &[i64], i: usize) -> Row
    requires { RowIn journal.now i }
    ensures { AlikeRow result (row_at journal.now i) }
{
    row_by(journal, i, bits)
}

// A word that is known not to be negative.
fn get_small(t: &[i64], i: usize) -> u64
    requires { (i < length t.now) × (word t.now i < 2 ^ 63) }
    ensures { result ≡ word t.now i }
{
    t[i] as u64
}

// One word of row i, where it is known to be small.
// Kept: three functions of one line over `get_small`, as `table_rows` has five over `get`: each names the word at a call.
pub fn small_account(journal: &[i64], i: usize) -> u64
    requires { RowIn journal.now i × ((row_at journal.now i).account < 2 ^ 63) }
    ensures { result ≡ (row_at journal.now i).account }
{
    get_small(journal, i * ROW_WIDTH + ACCOUNT_PLACE)
}

pub fn small_amount(journal: &[i64], i: usize) -> u64
    requires { RowIn journal.now i × ((row_at journal.now i).amount < 2 ^ 63) }
    ensures { result ≡ (row_at journal.now i).amount }
{
    get_small(journal, i * ROW_WIDTH + AMOUNT_PLACE)
}

pub fn small_settled(journal: &[i64], i: usize) -> u64
    requires { RowIn journal.now i × ((row_at journal.now i).settled < 2 ^ 63) }
    ensures { result ≡ (row_at journal.now i).settled }
{
    get_small(journal, i * ROW_WIDTH + SETTLED_PLACE)
}
