// The clauses of soundness on lengths and header, and the tests that the others share.
#![tactic(auto)]

pub mod tests; // tests.rt: between, implies
pub mod header; // header.rt: lengths, day, schedule
