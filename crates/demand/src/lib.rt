// No code: what demand 3 asks of one list, in words of placings and hits (specs/Demand.antt), and the laws that hard and soft decode share.
#![tactic(auto)]
