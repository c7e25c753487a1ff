// The rules of documents 01 and 02 as definitions that compute: the book, settlement, the events, refusals, opening, soundness and the
// calls on lent tables. No code: definitions in specs/, laws and the worked examples in proofs/.
#![tactic(auto)]
