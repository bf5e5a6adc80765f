//! Whom a load, a reload or a traversal that begins is to ask before documents are left.
#![tactic(auto)]

mod asking;
mod question;

pub use asking::{leave_questions, traverse_questions};
pub use question::Question;
