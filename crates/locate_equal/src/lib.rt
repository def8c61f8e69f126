// No code: that the engine without tables and document 01's selection with the gate answer the same on one list (specs/Equal.antt, specs/EqualTheorems.antt).
#![tactic(auto)]
