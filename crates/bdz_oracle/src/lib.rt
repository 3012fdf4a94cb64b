// What the Rust harness links: plain functions on numbers and slices. Keys come as little-endian bytes, and values too; they are read
// into rooms that are lent, once nothing is left to refuse that can be judged without them.
#![tactic(auto)]

pub mod building;
pub mod feeding;
pub mod hashing;
pub mod imaging;
pub mod listing;
pub mod looking;
pub mod packing;
pub mod reading;
