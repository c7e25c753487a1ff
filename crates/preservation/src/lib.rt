// Sound stays sound: an accepted event keeps a sound book sound, and leaves the accounts and rows that it doesn't name alone. No code:
// laws in proofs/.
#![tactic(auto)]
