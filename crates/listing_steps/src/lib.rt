// The listing, step by step over lent bytes or its input: the next line is taken where it is whole, and after the last one the book is
// printed.
#![tactic(auto)]

ghost use Rattle.std.specs.Prelude.{◌≡◌, false, not, is_ok, [], ◌++◌, ◌+◌, ◌≤◌, ◌<◌, length, drop};
ghost use Rattle.decimal.specs.Bytes.{index_of, text_bytes};
ghost use Rattle.rules.specs.Tables.{book_of};
ghost use Rattle.listing_rules.specs.Texts.{lines_of};
ghost use Rattle.listing_rules.specs.Listing.{most_lines, listed};
ghost use Rattle.listing_rules.specs.Sizes.{most_answer_bytes, most_book_bytes, most_end_bytes};
ghost use Rattle.listing_lines.specs.Lines.{Ready};
ghost use Rattle.listing_steps.specs.Steps.{is_waiting, is_over, over_at, Stands, Awaits, Stepped};
ghost use Rattle.lent.specs.Lent.{lent, lent_mut, SameTables};

use decimal::{TEXT_BYTES, Text};
use lent::{Tables, TablesMut};
use listing_book::write_book;
use listing_input::{Input, line_end};
use listing_lines::{BadLine, take_line};
use listing_text::write_bad_line;

// What comes next: a line is taken; more of the input is awaited, as no whole line is left; or nothing, where a bad line or the end of the
// input has ended the output.
#[derive(Clone, Copy, PartialEq, Eq)]
pub enum Phase {
    Taking,
    Waiting,
    Over,
}

// Where the listing stands: so many lines are taken.
#[derive(Clone, Copy)]
pub struct Place {
    pub lines: u64,
    pub phase: Phase,
}

// Where a step over lent bytes leads: so many of them are taken, and there the listing stands.
#[derive(Clone, Copy)]
pub struct Step {
    pub taken: usize,
    pub place: Place,
}

// The listing as it stands: the book's tables, the bytes that are read and not taken, those that are written and not printed, its place.
#[derive(Drop)]
pub struct Listing<'a> {
    pub t: TablesMut<'a>,
    pub input: Input,
    pub out: Text<TEXT_BYTES>,
    pub place: Place,
}

// A good line of the input has at most so many bytes, without its line feed (most_line_bytes).
const MOST_LINE_BYTES: usize = 230;

// Lines 1 to 3 are names and the opening; an input with fewer lines is bad.
const FIRST_LINES: u64 = 3;

// No line feed is among the bytes: it waits for more of them, unless they are already more than a good line has.
fn unended_line<const N: usize>(bytes: &[u8], lines: u64, out: &mut Text<N>) -> Place
    requires { (length out.old + most_answer_bytes ≤ N) × (lines < most_lines) }
    ensures { Awaits bytes.now out.old out.new lines result }
{
    if bytes.len() <= MOST_LINE_BYTES {
        return Place {
            lines,
            phase: Phase::Waiting,
        };
    }
    write_bad_line(out, lines + 1);
    Place {
        lines,
        phase: Phase::Over,
    }
}

// Every line is taken: prints what the end of the input brings.
fn write_end<const N: usize>(t: Tables, lines: u64, out: &mut Text<N>)
    requires { Ready lines (lent t) × (length out.old + most_book_bytes ≤ N) }
    ensures { out.new ≡ out.old ++ listed lines (book_of (lent t.entry)) [] }
{
    if lines < FIRST_LINES {
        write_bad_line(out, lines + 1);
    } else {
        write_book(t, out);
    }
}

// A good line is taken, and then the next; a bad one ends the output.
fn phase_after(taken: Result<(), BadLine>) -> Phase
    ensures over { is_over result ≡ not (is_ok taken) }
    ensures goes { is_waiting result ≡ false }
{
    if taken.is_err() {
        return Phase::Over;
    }
    Phase::Taking
}

// Takes the next line of lent bytes, where it is whole.
pub fn take_next<const N: usize>(
    t: &mut TablesMut,
    bytes: &[u8],
    p: Place,
    out: &mut Text<N>,
) -> Step
    requires { Stands N (lent_mut t.old) out.old p }
    ensures same { SameTables t.old t.new }
    ensures stepped { Stepped
        (lent_mut t.old)
        (lent_mut t.new)
        bytes.now (drop result.taken bytes.now) out.old out.new p result.place }
    ensures within { result.taken ≤ length bytes.now }
{
    let Some(stop) = line_end(bytes) else {
        return Step {
            taken: 0,
            place: unended_line(bytes, p.lines, out),
        };
    };
    let taken = take_line(t, &bytes[..stop], p.lines, out);
    Step {
        taken: stop + 1,
        place: Place {
            lines: p.lines + 1,
            phase: phase_after(taken),
        },
    }
}

// The input is over: takes the bytes that are left, without a line feed, as its last line, and writes what comes after it.
pub fn write_rest<const N: usize>(t: &mut TablesMut, rest: &[u8], lines: u64, out: &mut Text<N>)
    requires { Ready lines (lent_mut t.old)
        × (index_of 10 rest.now ≡ length rest.now)
        × (length out.old + most_end_bytes ≤ N)
        × (lines < most_lines) }
    ensures same { SameTables t.old t.new }
    ensures text { out.new ≡ out.old ++ listed lines (book_of (lent_mut t.old)) (lines_of rest.now) }
{
    if rest.is_empty() {
        write_end(t.read(), lines, out);
        return;
    }
    if take_line(t, rest, lines, out).is_ok() {
        write_end(t.read(), lines + 1, out);
    }
}

impl Listing<'_> {
    // Takes the next line, where it is whole.
    pub fn take_next(&mut self)
        requires { Stands text_bytes (lent_mut self.old.t) self.old.out self.old.place }
        ensures same { SameTables self.old.t self.new.t }
        ensures stepped { Stepped
            (lent_mut self.old.t)
            (lent_mut self.new.t)
            self.old.input self.new.input self.old.out self.new.out self.old.place self.new.place }
    {
        let step = take_next(
            &mut self.t,
            self.input.as_bytes(),
            self.place,
            &mut self.out,
        );
        self.input.skip(step.taken);
        self.place = step.place;
    }

    // The input is over: takes the bytes that are left, without a line feed, as its last line, and writes what comes after it.
    pub fn write_rest(&mut self)
        requires { Ready self.old.place.lines (lent_mut self.old.t)
            × (index_of 10 self.old.input ≡ length self.old.input)
            × (length self.old.out + most_end_bytes ≤ text_bytes)
            × (self.old.place.lines < most_lines) }
        ensures same { SameTables self.old.t self.new.t }
        ensures text { self.new.out
            ≡ self.old.out ++ listed self.old.place.lines (book_of (lent_mut self.old.t)) (lines_of self.old.input) }
        ensures over { self.new.place ≡ over_at self.old.place.lines }
    {
        let lines = self.place.lines;
        self.place.phase = Phase::Over;
        write_rest(&mut self.t, self.input.as_bytes(), lines, &mut self.out);
    }
}
