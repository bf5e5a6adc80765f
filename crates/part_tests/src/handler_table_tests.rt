//! What no clause says: that memory suffices, and that real closures meet the condition of `add`.
use handler_table::{AddError, HandlerTable};
use log_model::{HandlerKind, LeaveCause, Leaving, Verdict};
use std::test::*;
use std::thread;

/// What is asked as a document is to leave.
type Ask = Box<dyn Fn(Leaving) -> Verdict + Send + Sync>;

// Slot, unsaved edits, cause, answer: slot 0 prompts where dirty, 1 where dirty and no traversal, 2 always; 3 is empty.
const ANSWERS: [(u8, bool, LeaveCause, Verdict); 12] = [
    (0, true, LeaveCause::Load, Verdict::Prompt),
    (0, true, LeaveCause::Traverse, Verdict::Prompt),
    (0, false, LeaveCause::Reload, Verdict::Leave),
    (1, true, LeaveCause::Load, Verdict::Prompt),
    (1, true, LeaveCause::Traverse, Verdict::Leave),
    (1, true, LeaveCause::Reload, Verdict::Prompt),
    (1, false, LeaveCause::Load, Verdict::Leave),
    (2, true, LeaveCause::Traverse, Verdict::Prompt),
    (2, false, LeaveCause::Traverse, Verdict::Prompt),
    (2, false, LeaveCause::Reload, Verdict::Prompt),
    (3, true, LeaveCause::Load, Verdict::Leave),
    (255, true, LeaveCause::Reload, Verdict::Leave),
];

#[test]
fn each_handler_answers_by_its_kind(rt: HostRuntime) -> Result<(), Fail> {
    let mut table = HandlerTable::new(rt.alloc());
    let dirty: Ask = Box::new(rt.alloc(), |leaving: Leaving| {
        if leaving.dirty {
            Verdict::Prompt
        } else {
            Verdict::Leave
        }
    })
    .map_err(|_| "memory")?;
    assert_eq!(rt; table.add(HandlerKind::Dirty, dirty).ok(), Some(0));
    let draft: Ask = Box::new(rt.alloc(), |leaving: Leaving| match leaving.cause {
        LeaveCause::Traverse => Verdict::Leave,
        LeaveCause::Load | LeaveCause::Reload => {
            if leaving.dirty {
                Verdict::Prompt
            } else {
                Verdict::Leave
            }
        }
    })
    .map_err(|_| "memory")?;
    assert_eq!(rt; table.add(HandlerKind::Draft, draft).ok(), Some(1));
    let always: Ask = Box::new(rt.alloc(), |_: Leaving| Verdict::Prompt).map_err(|_| "memory")?;
    assert_eq!(rt; table.add(HandlerKind::Always, always).ok(), Some(2));
    for (slot, dirty, cause, answer) in &ANSWERS {
        let leaving = Leaving {
            dirty: *dirty,
            cause: *cause,
        };
        let (here, there) = thread::join(
            &rt,
            || table.ask(*slot, leaving),
            || table.ask(2, leaving),
        );
        assert_eq!(rt; here, *answer, "slot {slot}");
        assert_eq!(rt; there, Verdict::Prompt);
    }
    assert_eq!(rt; table.kind(1), Some(HandlerKind::Draft));
    assert_eq!(rt; table.kind(3), None);
    Ok(())
}

#[test]
fn the_65th_handler_comes_back(rt: HostRuntime) -> Result<(), Fail> {
    let mut table = HandlerTable::new(rt.alloc());
    for slot in 0..64 {
        let ask: Ask = Box::new(rt.alloc(), |_: Leaving| Verdict::Prompt).map_err(|_| "memory")?;
        assert_eq!(rt; table.add(HandlerKind::Always, ask).ok(), Some(slot));
    }
    let ask: Ask = Box::new(rt.alloc(), |_: Leaving| Verdict::Prompt).map_err(|_| "memory")?;
    assert!(rt; matches!(table.add(HandlerKind::Always, ask), Err(AddError::Full(_))));
    assert_eq!(rt; table.kind(63), Some(HandlerKind::Always));
    Ok(())
}
