//! Texts and addresses, both of which a contract sees as lists of bytes.
#![tactic(auto)]

mod address;
mod comparing;
mod error;
mod reading;
mod text;

pub use address::Address;
pub use comparing::{rewritable, same_base};
pub use error::{AddressError, OutOfMemory, Overflowed};
pub use text::Text;
