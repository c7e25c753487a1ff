// A batch of event records on tables of any lengths and contents: soundness and the lengths once, then each event posted in order and its
// answer written.
#![tactic(auto)]

ghost use Rattle.std.specs.Prelude.{◌≡◌, true, pos};
ghost use Rattle.records.specs.Outcomes.{number_by, answer_of};
ghost use Rattle.rules.specs.Tables.{tables_with, sound_tables};
ghost use Rattle.call_rules.specs.Calls.{Gives, batch_call};
ghost use Rattle.event_heirs.specs.Heirs.{Receives};
ghost use Rattle.batch_index.specs.Index.{Indexed};
ghost use Rattle.call_words.specs.Answers.{AnswerIn};
ghost use Rattle.call_batch.specs.BatchCalls.{RecordPosted};
ghost use Rattle.lent.specs.Lent.{lent_mut, SameTables};

use batch_index::Index;
use call_refusals::batch::check_batch;
use call_words::write_answer;
use event_heirs::forward;
use event_refusals::admit;
use events::post_admitted;
use lent::TablesMut;
use records::refusals::Refusal;
use records::{Answer, Event, Instruction, Posting};

// One event of the batch, on the account that takes it: only where it is admitted is it looked up in the index and posted, and the index
// brought up to the journal.
fn post_indexed(
    t: &mut TablesMut,
    holidays: &[i64],
    e: Instruction,
    index: &mut Index,
) -> Result<Posting, Refusal>
    requires { (sound_tables (tables_with holidays.now (lent_mut t.old)) ≡ true)
        × Indexed (lent_mut t.old) index.old }
    ensures same { SameTables t.old t.new }
    ensures posts { Receives (tables_with holidays.now (lent_mut t.old))
        (tables_with holidays.now (lent_mut t.new))
        e
        (answer_of result) }
    ensures indexed { Indexed (lent_mut t.new) index.new }
{
    let tables = t.read();
    let e = forward(tables, e);
    let x = admit(tables, e)?;
    let before = t.used() as usize;
    let k = index.look_up(tables, e);
    let outcome = post_admitted(t, holidays, e, x, k);
    index.update(t.read(), before, e);
    outcome
}

// One record of the batch: its event posted, answer i written, and the index brought up to the journal.
pub fn post_record(
    t: &mut TablesMut,
    holidays: &[i64],
    answers: &mut [i64],
    i: usize,
    x: Event,
    index: &mut Index,
)
    requires { (sound_tables (tables_with holidays.now (lent_mut t.old)) ≡ true)
        × AnswerIn answers.old i
        × Indexed (lent_mut t.old) index.old }
    ensures same { SameTables t.old t.new }
    ensures posts { RecordPosted (tables_with holidays.now (lent_mut t.old))
        (tables_with holidays.now (lent_mut t.new))
        answers.old answers.new i x }
    ensures indexed { Indexed (lent_mut t.new) index.new }
{
    let outcome = post_indexed(t, holidays, Instruction::from(x), index);
    write_answer(answers, i, Answer::from(outcome));
}

// Posts the events in order, going on after a refusal; a batch that is refused writes nothing.
pub fn batch_call(
    t: &mut TablesMut,
    holidays: &[i64],
    events: &[Event],
    answers: &mut [i64],
) -> Result<(), Refusal>
    ensures same { SameTables t.old t.new }
    ensures gives { Gives
        (batch_call (tables_with holidays.now (lent_mut t.old)) events.now answers.old)
        (pos (number_by result))
        (tables_with holidays.now (lent_mut t.new))
        answers.new }
{
    check_batch(t.read(), holidays, events.len(), answers)?;
    let mut index = Index::new();
    index.start(t.read());
    for (i, event) in events.iter().enumerate() {
        post_record(t, holidays, answers, i, *event, &mut index);
    }
    Ok(())
}
