// What is looked up in the tables for an event before it is posted: whether a toll's passage number stands in the journal, whether a
// top-up is due, and from which rows on something of the account's can be left.
#![tactic(auto)]

ghost use Rattle.std.specs.Prelude.{◌≡◌, true, ◌&&◌, ◌<◌};
ghost use Rattle.records.specs.Encoding.{row_at};
ghost use Rattle.lists.specs.Tests.{◌is◌};
ghost use Rattle.lists.specs.Lists.{exists};
ghost use Rattle.rules.specs.Rows.{toll};
ghost use Rattle.rules.specs.Tables.{sound_tables};
ghost use Rattle.table_rows.specs.UsedRows.{rows_in};
ghost use Rattle.event_lookups.specs.Lookups.{LooksUp};
ghost use Rattle.lent.specs.Lent.{lent};

use balances::topup_due;
use lent::Tables;
use records::Instruction;
use records::codes::{EVENT_TOLL, EVENT_TOPUP_RESULT, KIND_TOLL};
use table_rows::{Rows, kind_at, reference_at};

// Of a toll, whether its passage number stands in the journal; of a top-up result, whether it is due; and the rows, counted from 0, from
// which on a source and a debit of the account are looked for. By default nothing is found, and they are looked for from the first row on.
#[derive(Clone, Copy, Default)]
pub struct Lookup {
    pub duplicate: bool,
    pub due: bool,
    pub source: usize,
    pub debit: usize,
}

// Row i is a toll of this passage number. Hardly a row has the number, so it is tested before the kind.
fn has_passage(rows: &Rows, i: usize, passage: u64) -> bool
    requires { i < rows.now.used }
    ensures { result ≡ toll (row_at rows.now.journal.now i)
        && (row_at rows.now.journal.now i).reference is passage }
{
    if reference_at(rows.journal, i) != passage {
        return false;
    }
    kind_at(rows.journal, i) == KIND_TOLL
}

// The passage number stands in the journal.
fn passage_found(rows: &Rows, passage: u64) -> bool
    ensures { result ≡ exists (λ r. toll r && r.reference is passage) (rows_in rows.now) }
{
    (0..rows.used).any(|i| has_passage(rows, i, passage))
}

// For one event: the journal is searched where it is a toll or a top-up result, and nothing is known of the account's rows.
pub fn look_up(t: Tables, e: Instruction) -> Lookup
    requires { sound_tables (lent t) ≡ true }
    ensures { LooksUp (lent t.entry) e result }
{
    let mut found = Lookup::default();
    if e.kind == EVENT_TOLL {
        found.duplicate = passage_found(&t.rows(), e.a);
        return found;
    }
    if e.kind == EVENT_TOPUP_RESULT {
        found.due = topup_due(t, e.account);
    }
    found
}
