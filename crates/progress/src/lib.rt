// No code: what every program of a reading does to the cursor, and that fuel is never used up. The proofs of the code cite it.
#![tactic(auto)]
