//! `Passed`, a load that has passed its unload check where an event was cut.
use log_model::{Items, Out};
use tab_ids::ReqId;

/// A load that has passed its unload check, and the rows that were put out for it, behind which the event was cut.
#[derive(Drop)]
pub struct Passed {
    pub req: ReqId,
    pub out: Out,
}

/// The loads that have passed since an event was cut, in their order.
pub type Passes = Items<Passed>;
