// Tests, sums and numbered walks over lists, and the laws of these and of signed words that every proof about the book uses. No code:
// definitions in specs/, laws in proofs/.
#![tactic(auto)]
