// No code: proofs/ has the theorems that two scripts are read alike where the premise in `blackout` holds of them, and pairs on which that is tried. They
// stand apart, so that an edit of the premise does not check them again.
#![tactic(auto)]
