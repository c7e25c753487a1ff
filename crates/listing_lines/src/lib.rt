// One line of the listing's input, taken: judged, carried out on the book's tables, and its answer written to a text.
#![tactic(auto)]

ghost use Rattle.std.specs.Prelude.{◌≡◌, [], cond, ◌++◌, ◌+◌, ◌≤◌, ◌<◌, length, is_ok};
ghost use Rattle.listing_rules.specs.Listing.{most_lines, is_good};
ghost use Rattle.listing_rules.specs.Sizes.{most_answer_bytes};
ghost use Rattle.listing_lines.specs.Lines.{answer_names, Ready, Judged, Carried, Taken};
ghost use Rattle.lent.specs.Lent.{lent_mut, SameTables};

use call_opening::open_book;
use call_words::read_event;
use decimal::{Text, read_numbers};
use events::post_event;
use lent::TablesMut;
use listing_text::{write_answer, write_bad_line};
use records::Answer;
use records::layout::{EVENT_WIDTH, OPENING_WIDTH};

// A line is not what a line of its number has to be.
#[derive(Clone, Copy, PartialEq, Eq)]
pub struct BadLine;

// "a line of names".
const OPENING_NAMES: &[u8] = b"day,len,f2,f3,f4,r1t,r1p,r2t,r2p,r3t,r3p";

// "a line of event names".
const EVENT_NAMES: &[u8] = b"kind,account,a,b,c,d,e,f,g";

// Line 1: the names of the opening's values.
fn first_line(line: &[u8]) -> Result<(), BadLine>
    ensures { is_ok result ≡ is_good 0 line.now }
{
    if line != OPENING_NAMES {
        return Err(BadLine);
    }
    Ok(())
}

// Line 2: the opening's values.
fn second_line(t: &mut TablesMut, line: &[u8]) -> Result<(), BadLine>
    requires { Ready 1 (lent_mut t.old) }
    ensures same { SameTables t.old t.new }
    ensures judged { Judged 1
        (lent_mut t.old)
        (lent_mut t.new)
        line.now result }
{
    let values = read_numbers::<OPENING_WIDTH>(line).ok_or(BadLine)?;
    open_book(t, &[], &values).map_err(|_| BadLine)
}

// Line 3: the names of an event's words. The answers' names are printed for it.
fn third_line<const N: usize>(line: &[u8], out: &mut Text<N>) -> Result<(), BadLine>
    requires { length out.old + most_answer_bytes ≤ N }
    ensures good { is_ok result ≡ is_good 2 line.now }
    ensures text { out.new ≡ out.old ++ cond (is_good 2 line.now) answer_names [] }
    ensures short { length out.new ≤ length out.old + most_answer_bytes }
{
    if line != EVENT_NAMES {
        return Err(BadLine);
    }
    out.extend_from_slice(b"event,answer,row,rows,raised,removed\n");
    Ok(())
}

// An event line, n lines before it: posted, its answer printed.
fn event_line<const N: usize>(
    t: &mut TablesMut,
    line: &[u8],
    n: u64,
    out: &mut Text<N>,
) -> Result<(), BadLine>
    requires { (length out.old + most_answer_bytes ≤ N) × (3 ≤ n) × (n < most_lines)
        × Ready n (lent_mut t.old) }
    ensures same { SameTables t.old t.new }
    ensures carried { Carried n
        (lent_mut t.old)
        (lent_mut t.new)
        line.now out.old out.new result }
{
    let values = read_numbers::<EVENT_WIDTH>(line).ok_or(BadLine)?;
    let outcome = post_event(t, &[], read_event(&values));
    write_answer(out, n - 2, Answer::from(outcome));
    Ok(())
}

// Any line, n lines before it. Nothing is printed for a bad one.
fn carry_out<const N: usize>(
    t: &mut TablesMut,
    line: &[u8],
    n: u64,
    out: &mut Text<N>,
) -> Result<(), BadLine>
    requires { (length out.old + most_answer_bytes ≤ N) × (n < most_lines)
        × Ready n (lent_mut t.old) }
    ensures same { SameTables t.old t.new }
    ensures carried { Carried n
        (lent_mut t.old)
        (lent_mut t.new)
        line.now out.old out.new result }
{
    // Kept: a switch over the lines, whose functions take different parameters; so tables, line and text go on one by one.
    match n {
        0 => first_line(line),
        1 => second_line(t, line),
        2 => third_line(line, out),
        _ => event_line(t, line, n, out),
    }
}

// Any line, n lines before it.
pub fn take_line<const N: usize>(
    t: &mut TablesMut,
    line: &[u8],
    n: u64,
    out: &mut Text<N>,
) -> Result<(), BadLine>
    requires { (length out.old + most_answer_bytes ≤ N) × (n < most_lines)
        × Ready n (lent_mut t.old) }
    ensures same { SameTables t.old t.new }
    ensures taken { Taken n
        (lent_mut t.old)
        (lent_mut t.new)
        line.now out.old out.new result }
{
    let taken = carry_out(t, line, n, out);
    if taken.is_err() {
        write_bad_line(out, n + 1);
    }
    taken
}
