// No code: calls one after the other come to what the whole reading comes to.
#![tactic(auto)]
