// What the programs that show runs of the library share: boards of our own and windows cut from them, answers as text, and what a call left in the lent room.
#![tactic(auto)]

pub mod cut; // boards of our own, and windows cut from them
pub mod print; // answers and signed numbers as text
pub mod lent; // what a call left in the lent room
