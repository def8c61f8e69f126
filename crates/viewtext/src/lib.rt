// Views and boards as text: their lines, words and decimals, and what is wrong with them. It needs no decoder.
#![tactic(auto)]

pub mod text; // words and lines
pub mod decimal; // numbers as people write them
pub mod fault; // what a file should have had
mod field; // one number of a line
mod edge; // one edge of a view
pub mod board_file; // a board's tables
pub mod list; // one list of edges, as columns
pub mod settings; // a view's settings
pub mod view_file; // a view's lists, settings and extent
