// Images: their header, their writer, the two openers, the audit, and the page feed.
#![tactic(auto)]

pub mod ask;
pub mod audit;
pub mod bits;
pub mod entry;
pub mod feed;
pub mod header;
pub mod list;
pub mod open;
pub mod page;
pub mod parts;
pub mod radix;
pub mod size;
pub mod slot;
pub mod start;
pub mod sweep;
pub mod write;
