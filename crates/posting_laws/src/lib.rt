// The laws by which the tables that an event leaves are the tables of the book that it makes: rows added and changed, accounts put back,
// the refusals that concern every event. No code: laws in proofs/.
#![tactic(auto)]
