// The answer in words and as a picture. It needs the answer's types, and no decoder.
#![tactic(auto)]

mod words; // what numbers mean in words
pub mod shown; // what all found answers have in common
pub mod told; // an answer of any decoder, as it is told
pub mod telling; // the answer for people
pub mod plain; // the answer for programs
mod picture; // the board with the square that the camera faces
pub mod map; // the picture's file
