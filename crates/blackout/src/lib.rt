// No code: a definition, which says what of a script may be blacked out, and its theorem, which says that the items stay the same. The theorem about the whole reading is in `alike`.
#![tactic(auto)]
