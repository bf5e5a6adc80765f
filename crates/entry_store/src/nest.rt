//! `Nest`, the entries of one navigable.
use log_model::Row;

/// The entries of one navigable, by step, under the document state that all of them hang on.
#[derive(Drop)]
pub struct Nest {
    pub rows: Vec<Row>,
}
