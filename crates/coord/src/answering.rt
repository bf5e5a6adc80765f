//! Whether the user is asked before a page is left.
ghost use Rattle.std.specs.Prelude.{◌≡◌};
ghost use Rattle.coord.specs.Standing.{StandsFor};
ghost use Rattle.log_model.specs.Equal.{holds};
ghost use Rattle.log_model.specs.Logs.{is_prompt_up};
ghost use Rattle.log_model.specs.Seen.{Seen, request_of};

use crate::coordinator::Coordinator;
use tab_ids::ReqId;

impl Coordinator {
    /// Whether a prompt of the request is up. None is today, since no document is asked. HTML Standard, "checking if unloading is canceled".
    pub fn is_prompt_up(&self, _req: ReqId) -> bool
        ensures { (s : Seen) → StandsFor s self.now → result ≡ holds is_prompt_up (request_of s _req) }
    {
        false
    }
}
