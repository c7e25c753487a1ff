// An event read from its nine words, and an answer written to its five.
#![tactic(auto)]

ghost use Rattle.std.specs.Prelude.{◌≡◌, ◌*◌, ◌≤◌, length};
ghost use Rattle.records.specs.Layout.{event_width, answer_width};
ghost use Rattle.records.specs.Encoding.{instruction_from, answer_words};
ghost use Rattle.tables.specs.Changes.{put_all};
ghost use Rattle.call_words.specs.Answers.{AnswerIn, StorableAnswer};

use records::layout::{
    A_PLACE, ANSWER_WIDTH, B_PLACE, C_PLACE, D_PLACE, E_PLACE, EVENT_ACCOUNT_PLACE,
    EVENT_KIND_PLACE, F_PLACE, G_PLACE,
};
use records::{Answer, Instruction};
use tables::words::{get, put_words};

// The event of a single call: nine words.
// Kept beside `Instruction::from`: to C a single event is a table of words, and one of a batch a record.
pub fn read_event(event: &[i64]) -> Instruction
    requires { event_width ≤ length event.now }
    ensures { result ≡ instruction_from event.now }
{
    Instruction {
        kind: get(event, EVENT_KIND_PLACE),
        account: get(event, EVENT_ACCOUNT_PLACE),
        a: get(event, A_PLACE),
        b: get(event, B_PLACE),
        c: get(event, C_PLACE),
        d: get(event, D_PLACE),
        e: get(event, E_PLACE),
        f: get(event, F_PLACE),
        g: get(event, G_PLACE),
    }
}

// Answer i of the table, counted from 0, becomes x: its five words and no other.
pub fn write_answer(answers: &mut [i64], i: usize, x: Answer)
    requires { AnswerIn answers.old i × StorableAnswer x }
    ensures { answers.new ≡ put_all answers.old (i * answer_width) 0 (answer_words x) }
{
    let words = [x.number, x.first, x.added, x.raised, x.removed];
    put_words(answers, i * ANSWER_WIDTH, words);
}
