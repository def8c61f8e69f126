// The edges of one list under one transform, gathered into groups (long residue, short residue, bit).
#![tactic(auto)]

pub mod groups; // the group of an edge, and the groups of a list
