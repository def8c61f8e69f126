// What demand 3 asks of decode over a part (request C-20), that its core meets it, and that the full part is the exact mode: definitions and laws, and no code.
#![tactic(auto)]
