// The direct scan of one transform: every origin in row-major order, where more pairs of cells are optimal than SEPARATION_PRODUCT_CAP in crate hard.
#![tactic(auto)]

pub mod direct; // the direct scan: all origins of one transform in row-major order
