// The listing program: reads an opening and events from standard input, and prints the events' answers, then the rows and the used
// accounts of a book of 64 accounts and 512 rows. What its turns print together is proved to be the listing of what they read (RunLaws);
// `print_due` and the input's `read_more` alone touch the system.
#![tactic(auto)]

ghost use Rattle.std.specs.Prelude.{◌≡◌, true};
ghost use Rattle.listing_lines.specs.Lines.{Sized};
ghost use Rattle.listing_steps.specs.Steps.{waits};
ghost use Rattle.listing.specs.Turns.{state_of, Starts, Standing, Reads, Turned, due, after_print};
ghost use Rattle.listing.specs.Runs.{Ran};
ghost use Rattle.lent.specs.Lent.{lent_mut, SameTables};

use decimal::{TEXT_BYTES, Text};
use lent::TablesMut;
use listing_input::Input;
use listing_steps::{Listing, Phase, Place};
use records::layout::{ACCOUNT_WIDTH, HEADER_WIDTH, ROW_WIDTH};
use std::io;
use std::io::Write;

// From here on the text is printed before more is written.
const NEARLY_FULL: usize = 65000;

// "It holds 64 accounts and 512 rows".
const LISTED_ACCOUNTS: usize = 64;

const LISTED_ROWS: usize = 512;

// A proved loop has to end and nothing says that an input does: so many turns that every line is counted.
const MOST_TURNS: u64 = 18446744073709551614;

// Why the program ends: the listing is over, a print failed, or its turns are used up.
#[derive(Clone, Copy, PartialEq, Eq)]
pub enum Ending {
    Listed,
    Unprinted,
    Unended,
}

// ---- printing

// Whether what is written is to be printed: before it waits, at the end, and where little room is left.
fn must_print(p: Place, out: &Text<TEXT_BYTES>) -> bool
    ensures { result ≡ due p out.now }
{
    match p.phase {
        Phase::Waiting => true,
        Phase::Over => true,
        Phase::Taking => out.len() >= NEARLY_FULL,
    }
}

// Prints what is written where it is due, and leaves nothing of it.
fn print_due(rt: &HostRuntime, listing: &mut Listing) -> io::Result<()>
    ensures same { SameTables listing.old.t listing.new.t }
    ensures printed { state_of listing.new ≡ after_print (state_of listing.old) }
{
    if !must_print(listing.place, &listing.out) {
        return Ok(());
    }
    let printed = rt.stdout().write_all(listing.out.as_bytes());
    listing.out.clear();
    printed
}

// ---- a turn

// No whole line is left: reads more of the input. Where none comes the input has ended, and the bytes that wait are its last line.
fn read_on(rt: &HostRuntime, listing: &mut Listing)
    requires { Standing (state_of listing.old)
        × (waits listing.old.place ≡ true) }
    ensures same { SameTables listing.old.t listing.new.t }
    ensures reads { Reads (state_of listing.old) (state_of listing.new) }
{
    let more = listing.input.read_more(rt);
    if more == 0 {
        listing.write_rest();
        return;
    }
    listing.place.phase = Phase::Taking;
}

// One line, or more input where it waits for it.
fn turn(rt: &HostRuntime, listing: &mut Listing)
    requires { Standing (state_of listing.old) }
    ensures same { SameTables listing.old.t listing.new.t }
    ensures turned { Turned (state_of listing.old) (state_of listing.new) }
{
    if listing.place.phase == Phase::Waiting {
        read_on(rt, listing);
        return;
    }
    listing.take_next();
}

// ---- the whole

// Lists standard input, and returns why it ends. An input of fewer bytes than a third of MOST_TURNS does not use the turns up
// (RunLaws.ran-long).
fn run(rt: &HostRuntime, listing: &mut Listing) -> Ending
    requires { Sized (lent_mut listing.old.t)
        × Starts (state_of listing.old) }
    ensures same { SameTables listing.old.t listing.new.t }
    ensures ran { Ran (state_of listing.new) result }
{
    for taken in 0..MOST_TURNS {
        turn(rt, listing);
        if print_due(rt, listing).is_err() {
            return Ending::Unprinted;
        }
        if listing.place.phase == Phase::Over {
            return Ending::Listed;
        }
    }
    Ending::Unended
}

fn main(rt: HostRuntime) {
    let mut header = [0i64; HEADER_WIDTH];
    let mut accounts = [0i64; LISTED_ACCOUNTS * ACCOUNT_WIDTH];
    let mut journal = [0i64; LISTED_ROWS * ROW_WIDTH];
    let mut listing = Listing {
        t: TablesMut {
            header: &mut header,
            accounts: &mut accounts,
            journal: &mut journal,
        },
        input: Input::new(),
        out: Text::new(),
        place: Place {
            lines: 0,
            phase: Phase::Waiting,
        },
    };
    run(&rt, &mut listing);
}
