// Text for people. It knows no board and no decoder.
#![tactic(auto)]

pub mod digits; // whole numbers by their digits
pub mod argument; // the arguments that a program is given
pub mod message; // what is told to people on standard error
pub mod number; // floats as people read them
pub mod files; // files by the names that arguments give, and what is told where one fails
