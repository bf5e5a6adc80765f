//! `Ask`, an unload handler as it is stored.
use log_model::{Leaving, Verdict};

/// What is asked as a document is to leave.
pub(crate) type Ask = Box<dyn Fn(Leaving) -> Verdict + Send + Sync>;
