// Why a batch is refused.
ghost use Rattle.std.specs.Prelude.{◌≡◌, List, length};
ghost use Rattle.lists.specs.Tests.{first};
ghost use Rattle.records.specs.Outcomes.{number_by};
ghost use Rattle.rules.specs.Tables.{tables_with};
ghost use Rattle.call_rules.specs.Calls.{Event, batch_refusals};
ghost use Rattle.lent.specs.Lent.{lent};

use lent::Tables;
use records::layout::ANSWER_WIDTH;
use records::limits::MOST_EVENTS;
use records::refusals::Refusal;
use soundness::sound;

// A batch of so many events: the book is not sound, too many events, or fewer than five answer words for each.
pub fn check_batch(
    t: Tables,
    holidays: &[i64],
    count: usize,
    answers: &[i64],
) -> Result<(), Refusal>
    ensures { (es : List Event) → length es ≡ count → number_by result
        ≡ first (batch_refusals (tables_with holidays.now (lent t.entry)) es answers.now) }
{
    if !sound(t, holidays) {
        return Err(Refusal::Unsound);
    }
    if MOST_EVENTS < count {
        return Err(Refusal::Malformed);
    }
    if answers.len() < count * ANSWER_WIDTH {
        return Err(Refusal::Malformed);
    }
    Ok(())
}
