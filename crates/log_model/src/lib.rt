//! The data of a tab's session history and of its log, and the definitions that say what a log means.
#![tactic(auto)]

mod action;
mod change;
mod handler;
mod header;
mod items;
mod job;
mod made;
mod outcome;
mod request;
mod row;
mod row_kind;

pub use action::Action;
pub use change::Change;
pub use handler::{HandlerKind, LeaveCause, Leaving, Verdict, prompts};
pub use header::{Header, Page, Pages, Site, Sites};
pub use items::Items;
pub use job::{Job, Jobs, Order, Task, Why};
pub use made::{Made, Report, What};
pub use outcome::{Cause, Denial, Ending, Outcome};
pub use request::{Mode, Poke, Request};
pub use row::{Docs, Navs, Row, Rows, copy_memo};
pub use row_kind::{Actor, LogRow, Out, RowKind};
