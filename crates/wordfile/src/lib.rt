// Files of cases and answers, as the programs that compare read them: words of four bytes, columns of words, and the file that an argument names. What a file holds
// no contract can say; what a word stands for is stated.
#![tactic(auto)]

pub mod words; // words of a file, as numbers, coordinates and floats
pub mod columns; // columns of words
pub mod named; // the file that an argument names
