// No code: proofs/ has the theorems over the definition of lexing, and scripts on which it is tried. They stand apart from `lexer`, so that an
// edit of its code does not check them again.
#![tactic(auto)]
