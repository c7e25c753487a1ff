// The calls on lent tables as definitions that compute: what each returns, writes and leaves, by the rules of the book. No code:
// definitions in specs/, laws and worked examples in proofs/.
#![tactic(auto)]
