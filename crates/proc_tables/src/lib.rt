//! What the processes of a tab keep: `Desks`, the lists of each process, and `Views`, the view of each document.
#![tactic(auto)]

mod desk;
mod desks;
mod item;
mod views;

pub use desk::Desk;
pub use desks::Desks;
pub use item::Item;
pub use views::Views;
