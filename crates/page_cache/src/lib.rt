//! The documents kept for traversal, by their document states: those most recently left, up to a number.
#![tactic(auto)]

mod page_cache;

pub use page_cache::PageCache;
