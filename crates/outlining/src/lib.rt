// Theorems about the text of an outline, in proofs/: worked examples, and that every outline fits the program's buffer. No code.
#![tactic(auto)]
