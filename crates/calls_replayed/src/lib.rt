// No code: any run of the ledger's calls from an opening that gave 0 meets demand 3, each step taken by what its function's contract
// ensures; and each is lent the list of holidays that the opening took.
#![tactic(auto)]
