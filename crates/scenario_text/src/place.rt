//! `Place`, how far the lines before have come.
use crate::line::Lines;
use log_model::{Header, Pages, Sites};

/// The last line of the header so far.
#[derive(Clone, Copy)]
pub enum Stage {
    Version,
    Keep,
    Site,
    Page,
}

/// What the lines of the header have given so far.
#[derive(Drop)]
pub struct Settings {
    pub keep: u32,
    pub sites: Sites,
    pub pages: Pages,
}

/// How far the lines before have come.
#[derive(Drop)]
pub enum Place {
    /// No line but such as are passed over.
    Start,
    /// The version, but not yet `open`.
    Heading(Stage, Settings),
    /// `open`, and these lines after it.
    Body(Header, Lines),
}
