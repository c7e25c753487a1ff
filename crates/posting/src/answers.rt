// What an accepted event did.
ghost use Rattle.std.specs.Prelude.{◌≡◌, ◌<◌, cond, Ok};
ghost use Rattle.records.specs.Outcomes.{answer_of};
ghost use Rattle.posting.specs.Posts.{acceptance_of};

use records::Posting;

// Accepted: the first new row if any, and how many; the rows used before are counted.
pub fn posted(used: u64, added: u64, raised: u64, removed: bool) -> Posting
    requires { used < 9223372036854775808 }
    ensures { answer_of (Ok result) ≡ acceptance_of used added raised (cond removed 1 0) }
{
    Posting {
        first: (added != 0).then_some(used + 1),
        added,
        raised,
        removed,
    }
}
