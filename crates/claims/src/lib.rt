// No code: what is promised stands in proofs/Claims.antt.
#![tactic(auto)]
