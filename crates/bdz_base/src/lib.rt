// Hashing and packing: what mixes a key, where its vertices lie, how large a table is, and how its words stand in bytes.
#![tactic(auto)]

pub mod mix;
pub mod pack;
pub mod refusal;
pub mod size;
pub mod verts;
pub mod width;
pub mod words;
