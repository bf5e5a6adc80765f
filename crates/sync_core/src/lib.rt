//! What comes of a document's report: when it is taken up, and the change that it asks of the history.
#![tactic(auto)]

mod changing;
mod error;
mod judging;

pub use changing::change_of;
pub use error::SyncError;
pub use judging::{Judged, judge};
