// No code: the shape of every tree that a parsing keeps.
#![tactic(auto)]
