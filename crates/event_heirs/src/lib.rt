// On which account a toll posts: one for a closed account goes to its heir.
#![tactic(auto)]

ghost use Rattle.std.specs.Prelude.{◌≡◌};
ghost use Rattle.rules.specs.Successors.{takes_tolls, toll_account, forwarded};
ghost use Rattle.rules.specs.Tables.{book_of};
ghost use Rattle.lent.specs.Lent.{lent};

use lent::Tables;
use records::codes::{EVENT_TOLL, STATE_CLOSED, STATE_OPEN, STATE_PENDING};
use records::{Account, Instruction};

// The account takes tolls passed on to it.
fn takes_tolls(x: Account) -> bool
    ensures { result ≡ takes_tolls x }
{
    (x.state == STATE_OPEN) | (x.state == STATE_PENDING)
}

// The account on which a toll of account n posts: its successor, one step and no further, where n is closed and the successor takes tolls.
fn toll_account(t: Tables, n: u64) -> u64
    ensures { result ≡ toll_account (book_of (lent t.entry)) n }
{
    let x = t.account(n);
    if x.state != STATE_CLOSED {
        return n;
    }
    let successor = t.account(x.successor);
    if !takes_tolls(successor) {
        return n;
    }
    x.successor
}

// The event as it is posted: a toll on the account that takes it, every other event as it came.
pub fn forward(t: Tables, e: Instruction) -> Instruction
    ensures { result ≡ forwarded (book_of (lent t.entry)) e }
{
    if e.kind != EVENT_TOLL {
        return e;
    }
    Instruction {
        account: toll_account(t, e.account),
        ..e
    }
}
