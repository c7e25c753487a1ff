// The words of the lent tables, and the laws of a table in which one record changes. Negative words and words past every limit are met
// here and nowhere above.
#![tactic(auto)]

pub mod words; // words.rt: one word
