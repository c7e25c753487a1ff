// Demand 3 of the calls, as one statement over any list of calls on lent tables from an opening that gave 0. No code: definitions in
// specs/, laws in proofs/.
#![tactic(auto)]
