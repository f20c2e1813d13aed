// No code: proofs/ has scripts with what the original answers, on which the definition of the reading is tried by computation. They stand apart
// from `reader`, so that an edit of its code does not compute them again.
#![tactic(auto)]
