// The class tables of one transform, in room that the caller lends: edges are gathered into groups, each family of six groups is folded into
// terms, and the terms are credited to the cells of both sides.
#![tactic(auto)]

pub mod build; // the tables of one transform: cleared, groups filled, both sides built
mod credit; // a family's terms added to the cells of one side
