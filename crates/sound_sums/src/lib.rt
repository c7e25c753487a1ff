// The clauses of soundness that add up the rows of each account.
#![tactic(auto)]

pub mod accounts; // accounts.rt: the accounts
