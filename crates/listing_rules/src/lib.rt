// What the listing program prints for every input, as a definition that computes, and its laws on an input that comes in parts. No code.
// Document 01 is the scope document of the toll account ledger.
#![tactic(auto)]
