//! The view that a document has of itself: what it shows, what it makes of an action, and what an order does to it.
#![tactic(auto)]

mod error;
mod view;

pub use error::ActError;
pub use view::View;
