// The used rows of a journal that can be counted and summed.
ghost use Rattle.account_sums.specs.Tallies.{Countable};

use table_rows::Rows;

// Each of them has a kind, an account and amounts whose sums fit.
#[derive(Clone, Copy)]
pub struct CountableRows<'a> {
    pub rows: Rows<'a>,
    pub ghost countable: { Countable rows.journal.now rows.used },
}
