//! Words of a line that are numbers, or texts that a row holds, each after a space.
//! They are inlined, so that a `Count` of which one number is read counts that one alone.
ghost use Rattle.std.specs.Prelude.{◌≡◌, ◌++◌, codes, decimal, fold};
ghost use Rattle.std.specs.Fmt.{signed_decimal};
ghost use Rattle.log_text.specs.Spellings as spec;

use crate::out::Out;
use tab_ids::{Death, DocId, EntryId, JobId, NavId, ProcId, ReqId, StateId};

/// Bytes as they are.
#[inline(always)]
pub fn put_text<O: Out>(out: &mut O, text: &[u8])
    ensures { out.new ≡ fold O.after out.old (codes " " ++ text.now) }
{
    out.put(b" ");
    out.put(text);
}

/// A number.
#[inline(always)]
pub fn put_number<O: Out>(out: &mut O, number: u64)
    ensures { out.new ≡ fold O.after out.old (codes " " ++ decimal number) }
{
    out.put_number(b" ", number);
}

/// How far a traversal goes.
#[inline(always)]
pub fn put_delta<O: Out>(out: &mut O, delta: i32)
    ensures { out.new ≡ fold O.after out.old (codes " " ++ signed_decimal delta) }
{
    let number = u64::from(delta.unsigned_abs());
    if delta < 0 {
        out.put_number(b" -", number);
    } else {
        out.put_number(b" ", number);
    }
}

/// A navigable.
#[inline(always)]
pub fn put_nav<O: Out>(out: &mut O, nav: NavId)
    ensures { out.new ≡ fold O.after out.old (codes " " ++ spec.nav_name nav) }
{
    out.put_number(b" n", u64::from(nav.0));
}

/// An entry: its maker, and its number among that maker's entries.
#[inline(always)]
pub fn put_entry<O: Out>(out: &mut O, entry: EntryId)
    ensures { out.new ≡ fold O.after out.old (codes " " ++ spec.entry_name entry) }
{
    out.put_number(b" e", entry.maker);
    out.put_number(b".", u64::from(entry.nr));
}

/// A document state.
#[inline(always)]
pub fn put_state<O: Out>(out: &mut O, state: StateId)
    ensures { out.new ≡ fold O.after out.old (codes " " ++ spec.state_name state) }
{
    out.put_number(b" s", u64::from(state.0));
}

/// A document.
#[inline(always)]
pub fn put_doc<O: Out>(out: &mut O, doc: DocId)
    ensures { out.new ≡ fold O.after out.old (codes " " ++ spec.doc_name doc) }
{
    out.put_number(b" d", doc.0);
}

/// A process.
#[inline(always)]
pub fn put_proc<O: Out>(out: &mut O, proc: ProcId)
    ensures { out.new ≡ fold O.after out.old (codes " " ++ spec.proc_name proc) }
{
    out.put_number(b" p", u64::from(proc.0));
}

/// A request.
#[inline(always)]
pub fn put_req<O: Out>(out: &mut O, req: ReqId)
    ensures { out.new ≡ fold O.after out.old (codes " " ++ spec.req_name req) }
{
    out.put_number(b" r", u64::from(req.0));
}

/// An order.
#[inline(always)]
pub fn put_job<O: Out>(out: &mut O, job: JobId)
    ensures { out.new ≡ fold O.after out.old (codes " " ++ spec.job_name job) }
{
    out.put_number(b" j", job.0);
}

/// A death of a process.
#[inline(always)]
pub fn put_death<O: Out>(out: &mut O, death: Death)
    ensures { out.new ≡ fold O.after out.old (codes " " ++ spec.death_name death) }
{
    out.put_number(b" x", u64::from(death.0));
}
