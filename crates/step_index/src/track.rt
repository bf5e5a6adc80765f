//! `Track`, the entries of one navigable.
use log_model::Row;
use tab_ids::NavId;

/// The entries of one navigable, by step.
#[derive(Drop)]
pub struct Track {
    pub nav: NavId,
    pub rows: Vec<Row>,
}
