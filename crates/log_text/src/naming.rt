//! The words of enums, and of what may be missing, each after a space.
ghost use Rattle.std.specs.Prelude.{◌≡◌, ◌++◌, codes, fold};
ghost use Rattle.log_text.specs.Spellings as spec;

use crate::names::{put_death, put_doc, put_number, put_proc, put_req, put_text};
use crate::out::Out;
use address::Text;
use log_model::{Actor, Denial, LeaveCause, Mode, Verdict, Why};
use tab_ids::DocId;

/// A memo; `-` is none.
#[inline(always)]
pub fn put_memo<O: Out>(out: &mut O, memo: &Option<Text>)
    ensures { out.new ≡ fold O.after out.old (codes " " ++ spec.memo_name memo.now) }
{
    match memo {
        Some(memo) => put_text(out, memo.bytes()),
        None => out.put(b" -"),
    }
}

/// A handler slot; `-` is none.
#[inline(always)]
pub fn put_slot<O: Out>(out: &mut O, slot: Option<u8>)
    ensures { out.new ≡ fold O.after out.old (codes " " ++ spec.slot_name slot) }
{
    match slot {
        Some(slot) => put_number(out, u64::from(slot)),
        None => out.put(b" -"),
    }
}

/// The document that is poked; `-` is none.
#[inline(always)]
pub fn put_poked<O: Out>(out: &mut O, doc: Option<DocId>)
    ensures { out.new ≡ fold O.after out.old (codes " " ++ spec.poked_name doc) }
{
    match doc {
        Some(doc) => put_doc(out, doc),
        None => out.put(b" -"),
    }
}

/// Who acts in an event.
#[inline(always)]
pub fn put_actor<O: Out>(out: &mut O, actor: Actor)
    ensures { out.new ≡ fold O.after out.old (codes " " ++ spec.actor_name actor) }
{
    match actor {
        Actor::Start => out.put(b" start"),
        Actor::Ui => out.put(b" ui"),
        Actor::Coord => out.put(b" co"),
        Actor::Proc(proc) => put_proc(out, proc),
    }
}

/// What an order was sent for.
#[inline(always)]
pub fn put_why<O: Out>(out: &mut O, why: Why)
    ensures { out.new ≡ fold O.after out.old (codes " " ++ spec.why_name why) }
{
    match why {
        Why::Req(req) => put_req(out, req),
        Why::Death(death) => put_death(out, death),
        Why::Evict => out.put(b" evict"),
        Why::Start => out.put(b" start"),
    }
}

/// Why a request was refused.
#[inline(always)]
pub fn put_denial<O: Out>(out: &mut O, reason: Denial)
    ensures { out.new ≡ fold O.after out.old (codes " " ++ spec.denial_name reason) }
{
    match reason {
        Denial::NoStep => out.put(b" no-step"),
        Denial::NoNavigable => out.put(b" no-navigable"),
        Denial::NotShown => out.put(b" not-shown"),
        Denial::NoDocument => out.put(b" no-document"),
        Denial::NavTaken => out.put(b" nav-taken"),
        Denial::BadAddress => out.put(b" address"),
    }
}

/// Why a document is asked whether it may be left.
#[inline(always)]
pub fn put_leave_cause<O: Out>(out: &mut O, cause: LeaveCause)
    ensures { out.new ≡ fold O.after out.old (codes " " ++ spec.leave_cause_name cause) }
{
    match cause {
        LeaveCause::Load => out.put(b" load"),
        LeaveCause::Traverse => out.put(b" traverse"),
        LeaveCause::Reload => out.put(b" reload"),
    }
}

/// What an asked document answers.
#[inline(always)]
pub fn put_verdict<O: Out>(out: &mut O, verdict: Verdict)
    ensures { out.new ≡ fold O.after out.old (codes " " ++ spec.verdict_name verdict) }
{
    match verdict {
        Verdict::Leave => out.put(b" leave"),
        Verdict::Prompt => out.put(b" prompt"),
    }
}

/// A navigation's history handling.
#[inline(always)]
pub fn put_mode<O: Out>(out: &mut O, mode: Mode)
    ensures { out.new ≡ fold O.after out.old (codes " " ++ spec.mode_name mode) }
{
    match mode {
        Mode::Auto => out.put(b" auto"),
        Mode::Push => out.put(b" push"),
        Mode::Replace => out.put(b" replace"),
    }
}

/// The user's answer to a prompt.
#[inline(always)]
pub fn put_answer<O: Out>(out: &mut O, stay: bool)
    ensures { out.new ≡ fold O.after out.old (codes " " ++ spec.answer_name stay) }
{
    if stay {
        out.put(b" stay");
    } else {
        out.put(b" leave");
    }
}

/// Whether a document is the initial one of its navigable.
#[inline(always)]
pub fn put_initial<O: Out>(out: &mut O, initial: bool)
    ensures { out.new ≡ fold O.after out.old (codes " " ++ spec.initial_name initial) }
{
    if initial {
        out.put(b" initial");
    } else {
        out.put(b" plain");
    }
}

/// Whether a document had unsaved edits.
#[inline(always)]
pub fn put_dirty<O: Out>(out: &mut O, dirty: bool)
    ensures { out.new ≡ fold O.after out.old (codes " " ++ spec.dirty_name dirty) }
{
    if dirty {
        out.put(b" dirty");
    } else {
        out.put(b" clean");
    }
}
