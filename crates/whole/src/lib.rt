// No code: theorems over the definition of the whole reading.
#![tactic(auto)]
