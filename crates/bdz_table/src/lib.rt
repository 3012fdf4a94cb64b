// Tables: peeling, both assigns, the builds, ranks and lookups.
#![tactic(auto)]

pub mod assign;
pub mod build;
pub mod graph;
pub mod index;
pub mod lookup;
pub mod needs;
pub mod occ;
pub mod pairs;
pub mod peel;
pub mod rank;
pub mod seeds;
pub mod seen;
pub mod view;
