// The cells of one side: terms added to a run of classes, in room that the caller lends.
#![tactic(auto)]

mod add; // terms added at some places: three cells of a class, four neighbours
pub mod run; // a run of classes: horizontal ones two at a time, vertical ones four at a time
