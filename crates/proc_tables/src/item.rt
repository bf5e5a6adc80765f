//! `Item`, what joins the lists of a process.
use log_model::{Job, Order, Poke, Report};

/// What joins the lists of a process.
#[derive(Drop)]
pub enum Item {
    /// The user asks for something: it joins the input.
    Poke(Poke),
    /// The coordinator sends an order: it joins the mail.
    Job(Job),
    /// The order that is taken up: it is in hand.
    Order(Order),
    /// What the coordinator is to be told: it joins the reports.
    Report(Report),
}
