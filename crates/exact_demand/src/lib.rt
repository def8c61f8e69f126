// What demand 3 asks of the exact mode (request C-15), and that its core meets it: definitions and laws, and no code.
#![tactic(auto)]
