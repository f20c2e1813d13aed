// No code: room enough for every source.
#![tactic(auto)]
