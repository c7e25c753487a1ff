// A day tick in the terms in which code carries it out: which accounts its settlement can change, how many rows it adds, and that nothing
// is left to settle at its end. No code: definitions in specs/, laws in proofs/.
#![tactic(auto)]
