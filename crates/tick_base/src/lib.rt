// What the steps of a day tick share: tests of rows and accounts against the day, the fees by stage, what remains of each account, and
// the tables midway.
#![tactic(auto)]

pub mod stages; // stages.rt: which tolls rise, and their fees
pub mod days; // days.rt: which holds end, and whose days to close are over
pub mod rows; // rows.rt: the used rows, where they can be counted
pub mod holds; // holds.rt: the rows whose hold ends, and those of each account that meet a test
pub mod sums; // sums.rt: what remains of each account's sources and debits
