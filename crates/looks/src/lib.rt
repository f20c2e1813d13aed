// No code: a parsing makes at most 45 looks for each token, and counts every one.
#![tactic(auto)]
