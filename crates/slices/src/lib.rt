// What is done to plain slices, by value and without a file: text put on a page, and the parts of columns and of lent room. It knows no board and no decoder.
#![tactic(auto)]

pub mod page; // text put together before it is written
pub mod part; // parts of columns and of lent room
