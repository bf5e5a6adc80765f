//! `Request`, what a user or a test driver asks of the tab.
ghost use Rattle.std.specs.Prelude.{◌≡◌, IfOk};

use crate::action::Action;
use address::{Address, OutOfMemory};
use tab_ids::{DocId, NavId, ReqId};

/// The navigation's history handling: `Auto` lets the navigable choose.
#[derive(Clone, Copy, PartialEq, Eq, Debug)]
pub enum Mode {
    Auto,
    Push,
    Replace,
}

/// A request. `Poke` lets the running document of a navigable act.
#[derive(Drop)]
pub enum Request {
    Load {
        nav: NavId,
        mode: Mode,
        address: Address,
    },
    Go {
        delta: i32,
    },
    Reload {
        nav: NavId,
    },
    Poke {
        nav: NavId,
        action: Action,
    },
}

impl Request {
    /// An equal request.
    pub fn copy(&self) -> Result<Request, OutOfMemory>
        ensures { IfOk result (λ request. request ≡ self.now) }
    {
        match self {
            Request::Load { nav, mode, address } => {
                let address = address.copy()?;
                Ok(Request::Load {
                    nav: *nav,
                    mode: *mode,
                    address,
                })
            }
            Request::Go { delta } => Ok(Request::Go { delta: *delta }),
            Request::Reload { nav } => Ok(Request::Reload { nav: *nav }),
            Request::Poke { nav, action } => {
                let action = action.copy()?;
                Ok(Request::Poke { nav: *nav, action })
            }
        }
    }
}

/// An accepted poke that waits in the input of its document's process.
#[derive(Drop)]
pub struct Poke {
    pub req: ReqId,
    pub doc: DocId,
    pub action: Action,
}

impl Poke {
    /// An equal poke.
    pub fn copy(&self) -> Result<Poke, OutOfMemory>
        ensures { IfOk result (λ poke. poke ≡ self.now) }
    {
        let action = self.action.copy()?;
        Ok(Poke {
            req: self.req,
            doc: self.doc,
            action,
        })
    }
}
