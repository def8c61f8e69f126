// Answers as structs of plain numbers, for C, C++ and Rust programs: on a refusal nothing but its number and its place.
#![tactic(auto)]

pub mod flat; // the answer of hard decode as a plain struct: on a refusal nothing but its number and its place
pub mod flat_soft; // the same for soft decode, whose answer has more places
pub mod flat_stats; // the same for match statistics
