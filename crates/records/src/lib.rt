// The ledger's records as values: a journal row, an account with its own operations, an event, an answer; and the words in which each is
// stored. Document 01 is the scope document of the toll account ledger, document 02 its change requests.
#![tactic(auto)]

pub mod codes; // codes.rt: the numbers of kinds, states, methods, disputes, modes and events
pub mod refusals; // refusals.rt: why an event is refused, and the answer that tells its outcome
pub mod limits; // limits.rt: the limits of document 01
pub mod layout; // layout.rt: the widths and places of the tables' words
pub mod words; // words.rt: a signed word as a number

ghost use Rattle.std.specs.Prelude.{◌≡◌, ◌^◌, ◌<◌};
ghost use Rattle.records.specs.Encoding.{instruction_of};
ghost use Rattle.records.specs.AccountOperations.{opened, check_returned, last_decline, declined_on, topup_paid, close_requested_on, closed, reserve_set, successor_set};

use crate::codes::{STATE_CLOSED, STATE_OPEN, STATE_PENDING};
use crate::limits::MOST_DECLINES;
use crate::words::natural;

// One row of the journal; by default none, all words 0.
#[derive(Clone, Copy, Default, PartialEq, Eq)]
pub struct Row {
    pub kind: u64,
    pub account: u64,
    pub day: u64,
    pub amount: u64,
    pub settled: u64,
    pub mark: u64,
    pub due: u64,
    pub dispute: u64,
    pub hold: u64,
    pub reference: u64,
}

// One account: state, close request day, returned checks, top-up threshold, top-up amount, declines, day of last decline, reserve,
// successor; by default unused, all words 0.
#[derive(Clone, Copy, Default, PartialEq, Eq)]
pub struct Account {
    pub state: u64,
    pub request: u64,
    pub returned: u64,
    pub threshold: u64,
    pub topup: u64,
    pub declines: u64,
    pub declined: u64,
    pub reserve: u64,
    pub successor: u64,
}

// An event as a host hands it over: nine signed words of any value.
#[repr(C)]
#[derive(Clone, Copy)]
pub struct Event {
    pub kind: i64,
    pub account: i64,
    pub a: i64,
    pub b: i64,
    pub c: i64,
    pub d: i64,
    pub e: i64,
    pub f: i64,
    pub g: i64,
}

// The same nine words as natural numbers; a negative word is past every limit.
#[derive(Clone, Copy)]
pub struct Instruction {
    pub kind: u64,
    pub account: u64,
    pub a: u64,
    pub b: u64,
    pub c: u64,
    pub d: u64,
    pub e: u64,
    pub f: u64,
    pub g: u64,
}

// What an accepted event did: the first new row if any, how many, how many tolls rose, whether the top-up was removed.
#[derive(Clone, Copy)]
pub struct Posting {
    pub first: Option<u64>,
    pub added: u64,
    pub raised: u64,
    pub removed: bool,
}

// The five words of the answer to an event.
#[derive(Clone, Copy)]
pub struct Answer {
    pub number: u64,
    pub first: u64,
    pub added: u64,
    pub raised: u64,
    pub removed: u64,
}

impl From<Event> for Instruction {
    ghost from_gives = { λ e i. i ≡ instruction_of e };

    fn from(e: Event) -> Self {
        Self {
            kind: natural(e.kind),
            account: natural(e.account),
            a: natural(e.a),
            b: natural(e.b),
            c: natural(e.c),
            d: natural(e.d),
            e: natural(e.e),
            f: natural(e.f),
            g: natural(e.g),
        }
    }
}

impl Account {
    // Event 1: open, with a top-up threshold and amount.
    pub fn open(threshold: u64, topup: u64) -> Self
        ensures { result ≡ opened threshold topup }
    {
        Self {
            state: STATE_OPEN,
            threshold,
            topup,
            ..Self::default()
        }
    }

    // Event 4: one returned check more; a closed account is pending again.
    pub fn return_check(mut self) -> Self
        requires { self.returned < 2 ^ 63 }
        ensures { result ≡ check_returned self }
    {
        self.returned = self.returned + 1;
        if self.state == STATE_CLOSED {
            self.state = STATE_PENDING;
        }
        self
    }

    // Whether the next decline is the third: the next result concerns the reserve, where there is one.
    pub fn last_decline(self) -> bool
        ensures { result ≡ last_decline self }
    {
        MOST_DECLINES <= self.declines
    }

    // Event 7, declined: the third decline removes the top-up, and the reserve with it.
    pub fn decline(mut self, today: u64) -> Self
        ensures { result ≡ declined_on today self }
    {
        if self.last_decline() {
            self.threshold = 0;
            self.topup = 0;
            self.declines = 0;
            self.declined = 0;
            self.reserve = 0;
            return self;
        }
        self.declines = self.declines + 1;
        self.declined = today;
        self
    }

    // Event 7, paid: the declines are forgotten; after two of them it is the reserve that paid, and it takes the primary's place.
    pub fn pay_topup(mut self) -> Self
        ensures { result ≡ topup_paid self }
    {
        if self.last_decline() {
            self.reserve = 0;
        }
        self.declines = 0;
        self.declined = 0;
        self
    }

    // Event 8: pending to close from today.
    pub fn request_close(mut self, today: u64) -> Self
        ensures { result ≡ close_requested_on today self }
    {
        self.state = STATE_PENDING;
        self.request = today;
        self
    }

    // Event 9: a pending account closes.
    pub fn close(mut self) -> Self
        ensures { result ≡ closed self }
    {
        self.state = STATE_CLOSED;
        self
    }

    // Event 11: a reserve is added or removed.
    pub fn set_reserve(mut self, reserve: u64) -> Self
        ensures { result ≡ reserve_set reserve self }
    {
        self.reserve = reserve;
        self
    }

    // Event 12: a successor is named, in the place of one named before.
    pub fn set_successor(mut self, successor: u64) -> Self
        ensures { result ≡ successor_set successor self }
    {
        self.successor = successor;
        self
    }
}
