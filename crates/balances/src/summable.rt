// The used rows of a journal whose amounts can be summed.
ghost use Rattle.posting.specs.Posts.{Amounts};

use table_rows::Rows;

#[derive(Clone, Copy)]
pub struct SummableRows<'a> {
    pub rows: Rows<'a>,
    pub ghost amounts: { Amounts rows.journal.now rows.used },
}
