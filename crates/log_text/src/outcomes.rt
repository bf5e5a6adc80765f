//! The words of how orders and requests end, and of how orders are taken up.
ghost use Rattle.std.specs.Prelude.{◌≡◌, fold};
ghost use Rattle.log_text.specs.Lines as spec;

use crate::names::{put_death, put_req};
use crate::naming::{put_dirty, put_slot, put_verdict};
use crate::out::Out;
use log_model::{Cause, Outcome};

/// How a finished order went; of an asked document only its answer.
pub fn put_outcome<O: Out>(out: &mut O, outcome: Outcome)
    ensures { out.new ≡ fold O.after out.old (spec.spaced (spec.outcome_words outcome)) }
{
    match outcome {
        Outcome::Populated(slot) => {
            out.put(b" populated");
            put_slot(out, slot);
        }
        Outcome::Activated => out.put(b" activated"),
        Outcome::Updated => out.put(b" updated"),
        Outcome::Frozen => out.put(b" frozen"),
        Outcome::Discarded => out.put(b" discarded"),
        Outcome::Asked(verdict) => put_verdict(out, verdict),
        Outcome::Fragmented => out.put(b" fragmented"),
    }
}

/// Why a request was dropped.
pub fn put_cause<O: Out>(out: &mut O, cause: Cause)
    ensures { out.new ≡ fold O.after out.old (spec.spaced (spec.cause_words cause)) }
{
    match cause {
        Cause::Stay => out.put(b" stay"),
        Cause::By(req) => {
            out.put(b" by");
            put_req(out, req);
        }
        Cause::Destroyed(req) => {
            out.put(b" destroyed");
            put_req(out, req);
        }
        Cause::Gone(death) => {
            out.put(b" gone");
            put_death(out, death);
        }
    }
}

/// How an order was taken up; in vain where its incarnation is dead.
pub fn put_taken<O: Out>(out: &mut O, live: bool, dirty: bool)
    ensures { out.new ≡ fold O.after out.old (spec.spaced (spec.taken_words live dirty)) }
{
    if live {
        out.put(b" live");
        put_dirty(out, dirty);
    } else {
        out.put(b" void");
    }
}
