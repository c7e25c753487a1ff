// Why a call or an event is refused, and what an accepted event did: the two outcomes of an event, and the five words of its answer.
ghost use Rattle.std.specs.Prelude.{◌≡◌, pos};
ghost use Rattle.records.specs.Outcomes.{number_of, answer_of};

use crate::{Answer, Posting};

// The reasons, with their numbers (document 01's table of answers; document 02), under the names of records' Numbers.
#[derive(Clone, Copy, Debug, PartialEq, Eq)]
pub enum Refusal {
    Unsound = 1,
    Malformed = 2,
    Unknown = 3,
    Taken = 4,
    Closed = 5,
    Unclassed = 6,
    Misdated = 7,
    Duplicate = 8,
    Barred = 9,
    NoRow = 10,
    Untimely = 11,
    LastDay = 12,
    Full = 13,
    Ceiling = 14,
    List = 15,
    Reserve = 16,
    Holidays = 17,
    Successor = 18,
}

// The number of its answer, as the answer's words are numbers.
impl From<Refusal> for u64 {
    ghost from_gives = { λ refusal number. number ≡ number_of refusal };

    fn from(refusal: Refusal) -> u64 {
        refusal as u64
    }
}

// The same as the signed word that a call gives.
impl From<Refusal> for i64 {
    ghost from_gives = { λ refusal number. number ≡ pos (number_of refusal) };

    fn from(refusal: Refusal) -> i64 {
        refusal as i64
    }
}

// Accepted: number 0 and what the event did; refused: the number, and the other words 0.
impl From<Result<Posting, Refusal>> for Answer {
    ghost from_gives = { λ outcome answer. answer ≡ answer_of outcome };

    fn from(outcome: Result<Posting, Refusal>) -> Self {
        match outcome {
            Ok(p) => Answer {
                number: 0,
                first: p.first.unwrap_or(0),
                added: p.added,
                raised: p.raised,
                removed: u64::from(p.removed),
            },
            Err(refusal) => Answer {
                number: u64::from(refusal),
                first: 0,
                added: 0,
                raised: 0,
                removed: 0,
            },
        }
    }
}
