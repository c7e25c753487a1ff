// A single event on tables of any lengths and contents: soundness, the lengths, the event, its answer written.
#![tactic(auto)]

ghost use Rattle.std.specs.Prelude.{pos};
ghost use Rattle.records.specs.Outcomes.{number_by, answer_of};
ghost use Rattle.rules.specs.Tables.{tables_with};
ghost use Rattle.call_rules.specs.Calls.{event_call, Gives};
ghost use Rattle.call_event.specs.EventCalls.{AnswersTo};
ghost use Rattle.lent.specs.Lent.{lent_mut, SameTables};

use call_refusals::single::check_event;
use call_words::{read_event, write_answer};
use events::post_event;
use lent::TablesMut;
use records::layout::ANSWER_WIDTH;
use records::refusals::Refusal;
use records::{Answer, Posting};

// What the event did, or why it is refused; the tables are changed where it is not. The answer table is read for its length alone.
fn post_call(
    t: &mut TablesMut,
    holidays: &[i64],
    event: &[i64],
    answer: &[i64],
) -> Result<Posting, Refusal>
    ensures same { SameTables t.old t.new }
    ensures answers { AnswersTo (tables_with holidays.now (lent_mut t.old))
        (tables_with holidays.now (lent_mut t.new))
        event.now
        answer.now
        (answer_of result) }
{
    check_event(t.read(), holidays, event, answer)?;
    let e = read_event(event);
    post_event(t, holidays, e)
}

// Posts one event, or refuses it; the answer's words are written wherever there is room for them, refused or not.
pub fn event_call(
    t: &mut TablesMut,
    holidays: &[i64],
    event: &[i64],
    answer: &mut [i64],
) -> Result<(), Refusal>
    ensures same { SameTables t.old t.new }
    ensures gives { Gives (event_call (tables_with holidays.now (lent_mut t.old))
        event.now
        answer.old)
        (pos (number_by result))
        (tables_with holidays.now (lent_mut t.new))
        answer.new }
{
    let outcome = post_call(t, holidays, event, answer);
    if answer.len() < ANSWER_WIDTH {
        return outcome.map(|_| ());
    }
    write_answer(answer, 0, Answer::from(outcome));
    outcome.map(|_| ())
}
