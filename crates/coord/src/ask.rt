//! `Ask`, what the user may ask the coordinator for.
use address::Address;
use log_model::Mode;
use tab_ids::NavId;

/// A request of the user that the coordinator carries out.
#[derive(Drop)]
pub enum Ask {
    /// A navigable is to navigate to an address.
    Load {
        nav: NavId,
        mode: Mode,
        address: Address,
    },
    /// The tab is to traverse its history by a delta.
    Go {
        delta: i32,
    },
}
