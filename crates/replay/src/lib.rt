// The replay of document 01, "What demand 3 counts", and demand 3 over any list of events. No code: definitions in
// specs/, laws and a worked example in proofs/.
#![tactic(auto)]
