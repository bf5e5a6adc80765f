//! `Handling`, what a navigation does to the entries of its navigable.
ghost use Rattle.std.specs.Prelude.{◌≡◌};
ghost use Rattle.navigate_core.specs.Navigations.{handling_of};

use log_model::Mode;

/// What a navigation does to the entries of its navigable: the "history handling behavior".
#[derive(Clone, Copy, PartialEq, Eq, Debug)]
pub enum Handling {
    /// A new entry follows the current one, and the forward history is cleared.
    Push,
    /// A new entry takes the place of the given one.
    Replace,
}

/// What a navigation does: `mode` is what it was asked to do, `initial` whether the navigable's document is an initial about:blank one, and `equal` whether the navigation's address is the given entry's. It takes no memory. HTML Standard, "navigate".
pub fn choose(mode: Mode, initial: bool, equal: bool) -> Handling
    ensures { result ≡ handling_of mode initial equal }
{
    let replaces = match mode {
        Mode::Replace => true,
        Mode::Auto => initial || equal,
        Mode::Push => initial,
    };
    if replaces {
        Handling::Replace
    } else {
        Handling::Push
    }
}
