// A board and a view read from the files that a program's arguments name, and the message of one that is at fault.
#![tactic(auto)]

mod report; // the message of a fault
pub mod files; // the board and the view
