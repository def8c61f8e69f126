// The static library for C, C++ and Rust programs: each export calls the library's function of the same name and promises what it promises.
#![tactic(auto)]

pub mod hard_decode; // Hard decode for C and Rust programs: each slice is a pointer and then its length.
pub mod soft_decode; // Soft decode for C and Rust programs: each slice is a pointer and then its length.
pub mod exact_decode; // Exact decode for C and Rust programs: each slice is a pointer and then its length.
pub mod located_square; // The engine without tables for C and Rust programs: each slice is a pointer and then its length.
pub mod match_statistics; // Match statistics for C and Rust programs: each slice is a pointer and then its length.
