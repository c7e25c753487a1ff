// Why a single event is refused before it is read.
ghost use Rattle.std.specs.Prelude.{◌≡◌};
ghost use Rattle.lists.specs.Tests.{first};
ghost use Rattle.records.specs.Outcomes.{number_by};
ghost use Rattle.rules.specs.Tables.{tables_with};
ghost use Rattle.call_rules.specs.Calls.{event_refusals};
ghost use Rattle.lent.specs.Lent.{lent};

use lent::Tables;
use records::layout::{ANSWER_WIDTH, EVENT_WIDTH};
use records::refusals::Refusal;
use soundness::sound;

// The book is not sound, another length than nine words, or an answer table of fewer than five.
pub fn check_event(
    t: Tables,
    holidays: &[i64],
    event: &[i64],
    answer: &[i64],
) -> Result<(), Refusal>
    ensures { number_by result ≡ first (event_refusals (tables_with holidays.now (lent t.entry))
        event.now
        answer.now) }
{
    if !sound(t, holidays) {
        return Err(Refusal::Unsound);
    }
    if (event.len() != EVENT_WIDTH) | (answer.len() < ANSWER_WIDTH) {
        return Err(Refusal::Malformed);
    }
    Ok(())
}
