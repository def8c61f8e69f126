// The verdict on the winners, by value: whether they agree, the gate, and the found answer put together.
#![tactic(auto)]

pub mod verdict; // the winners compared, the gate, and the found answer put together
