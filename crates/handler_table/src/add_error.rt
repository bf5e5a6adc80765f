//! `AddError`, why a handler wasn't added.
use log_model::{Leaving, Verdict};

/// Why a handler wasn't added.
#[derive(Drop)]
pub enum AddError {
    /// The table has 64 handlers; the handler comes back.
    Full(Box<dyn Fn(Leaving) -> Verdict + Send + Sync>),
    /// The allocator had no memory.
    OutOfMemory,
}
