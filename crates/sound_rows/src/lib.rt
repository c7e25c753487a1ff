// The clauses of soundness on a single row, each as a function with that clause as its contract.
#![tactic(auto)]

pub mod row; // row.rt: a row by itself
