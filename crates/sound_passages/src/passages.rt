// "Passage numbers differ", in linear time, a row at a time: the tolls read so far stand in digital search trees, so that no choice of
// numbers makes a way down longer than the bits that tell two numbers apart.
ghost use Rattle.std.specs.Prelude.{◌≡◌, ◌+◌, ◌≤◌, ◌<◌};
ghost use Rattle.tables.specs.Changes.{RowIn};
ghost use Rattle.sound_passages.specs.Trees.{mix_of, IsToll, HasPassage, TreesOf, Sought, CellFor, Inserted};

use records::codes::KIND_TOLL;
use records::limits::MOST_ROWS;
use table_rows::{Rows, kind_at, reference_at};

// A cell holds a row's number, 0 for none. The first half of the cells are the trees' roots; then each row has two cells, its branches.
pub const ROW_CELLS: usize = 4;

// For the most rows of a journal: 64 KiB of a caller's stack.
// Kept: trees in an array, since the ledger takes no memory from a heap.
pub const CELLS: usize = MOST_ROWS * ROW_CELLS;

// A passage number's bits spread by an odd multiplier: the first of 32 choose the tree, the others the way down.
fn mix(passage: u64) -> usize
    ensures { (result ≡ mix_of passage) × (result < 4294967296) }
{
    (passage % 1073741824 * 2654435769 % 4294967296) as usize
}

// Where passage x goes among the rows passed, in cells with space for as many or more: a free cell, or else the toll that has it.
// Kept: cells and space apart. They would make two structs: this one reads lent cells, those that insert write them.
pub fn seek(passed: &Rows, cells: &[u16], space: usize, x: u64) -> Result<usize, usize>
    requires { (passed.now.used ≤ space)
        × TreesOf space passed.now.journal.now cells.now passed.now.used }
    ensures { Sought space passed.now.journal.now cells.now passed.now.used x result }
{
    let mut y = mix(x);
    // A product chooses the root: a division by a number that is no constant would be slow.
    let mut c = y * space / 2147483648;
    let mut s = usize::from(cells[c]);
    // Kept: it goes down a tree, and counts no index.
    while s != 0 {
        if reference_at(passed.journal, s - 1) == x {
            return Err(s - 1);
        }
        c = 2 * space + 2 * (s - 1) + y % 2;
        y /= 2;
        s = usize::from(cells[c]);
    }
    Ok(c)
}

// The same where it is not asked which toll has it: none in its place.
pub fn cell_for(passed: &Rows, cells: &[u16], space: usize, x: u64) -> Option<usize>
    requires { (passed.now.used ≤ space)
        × TreesOf space passed.now.journal.now cells.now passed.now.used }
    ensures { CellFor space passed.now.journal.now cells.now passed.now.used x result }
{
    seek(passed, cells, space, x).ok()
}

// Row n, a toll of passage x, goes to its cell: false where an earlier toll has its passage number.
pub fn insert_toll(journal: &[i64], cells: &mut [u16], space: usize, n: usize, x: u64) -> bool
    requires { RowIn journal.now n
        × (n < space)
        × TreesOf space journal.now cells.old n
        × IsToll journal.now n
        × HasPassage journal.now n x }
    ensures { Inserted space journal.now cells.new n result }
{
    let passed = Rows { journal, used: n };
    let Ok(c) = seek(&passed, cells, space, x) else {
        return false;
    };
    cells[c] = (n + 1) as u16;
    true
}

// The same for a row of any kind: one that is no toll leaves the trees.
pub fn insert(journal: &[i64], cells: &mut [u16], space: usize, n: usize) -> bool
    requires { RowIn journal.now n × (n < space) × TreesOf space journal.now cells.old n }
    ensures { Inserted space journal.now cells.new n result }
{
    if kind_at(journal, n) != KIND_TOLL {
        return true;
    }
    let x = reference_at(journal, n);
    insert_toll(journal, cells, space, n, x)
}
