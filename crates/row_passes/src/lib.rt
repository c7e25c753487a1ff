// A pass over the used rows of a journal that changes each of them by the same step.
#![tactic(auto)]

ghost use Rattle.rules.specs.Rows.{Row};
ghost use Rattle.tables.specs.Changes.{RowsMapped};
ghost use Rattle.row_passes.specs.Passes.{MapsRows};

// The used rows in order, each changed by the step, which is called with the journal and the row's index.
pub fn change_rows<F: Fn(&mut [i64], usize)>(journal: &mut [i64], used: usize, step: F)
    requires { (f : Row → Row) × MapsRows F.Fn step f journal.old used }
    ensures { (f : Row → Row) → MapsRows F.Fn step f journal.old used → RowsMapped f journal.old journal.new used }
{
    for i in 0..used {
        step(journal, i);
    }
}
