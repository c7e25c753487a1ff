// Event 10: a rate list (document 02, No. 1).
#![tactic(auto)]

ghost use Rattle.std.specs.Prelude.{◌≡◌, true, ◌+◌, Ok};
ghost use Rattle.records.specs.Codes.{event_rate_list};
ghost use Rattle.records.specs.Outcomes.{answer_of};
ghost use Rattle.rules.specs.Tables.{sound_tables, three_tables};
ghost use Rattle.posting.specs.Posts.{PostsAny};
ghost use Rattle.event_refusals.specs.Admissions.{Admitted};

use posting::answers::posted;
use records::layout::{HEADER_LISTS, LIST_WIDTH, USED_PLACE};
use records::{Instruction, Posting};
use table_lists::Header;
use tables::words::{get, put_words};

// Event 10: words a to g become the first unused list. Admitted, it is not refused.
pub fn add_list(header: &mut [i64], accounts: &[i64], journal: &[i64], e: Instruction) -> Posting
    requires { (sound_tables (three_tables header.old accounts.now journal.now) ≡ true)
        × (e.kind ≡ event_rate_list)
        × Admitted (three_tables header.old accounts.now journal.now) e }
    ensures { PostsAny (three_tables header.old accounts.now journal.now)
        (three_tables header.new accounts.now journal.now)
        e
        (answer_of (Ok result)) }
{
    let used = get(header, USED_PLACE);
    let lists = Header { words: header };
    let p = HEADER_LISTS + lists.lists_used() * LIST_WIDTH;
    put_words(header, p, [e.a, e.b, e.c, e.d, e.e, e.f, e.g]);
    posted(used, 0, 0, false)
}
