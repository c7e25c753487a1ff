// The clause of soundness on passage numbers: no two tolls of the journal have the same, in time that grows with the rows.
#![tactic(auto)]

pub mod passages; // passages.rt: passage numbers differ
