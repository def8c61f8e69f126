// No code: that the test of one placing against the error limit reads as little as it can and answers as match statistics of the full list do (specs/Equal.antt, specs/EqualTheorems.antt).
#![tactic(auto)]
