// What the command was asked for, and what it says of itself: without the decoder.
#![tactic(auto)]

pub mod args; // the options, read off the arguments
pub mod help; // how the command is used
