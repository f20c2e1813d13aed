// No code: theorems over the definition of parsing: what it keeps, what it leaves, and that it depends on the sizes of the tables only.
#![tactic(auto)]
