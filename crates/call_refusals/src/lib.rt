// Why a call that posts events is refused before it reads one: the book is not sound, or a length is not what document 01 says.
#![tactic(auto)]

// Kept apart: they share the check of soundness, one call, and the test of an answer table, and would be told by parameters what differs.
pub mod single; // single.rt: of a single event
pub mod batch; // batch.rt: of a batch
