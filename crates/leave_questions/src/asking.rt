//! The documents that a request leaves as it begins, each with its question.
ghost use Rattle.std.specs.Prelude.{◌≡◌, IfOk};
ghost use Rattle.leave_questions.specs.Questions.{docs_at, leave_questions, questions_to, traverse_questions};

use crate::question::{Question, question_to};
use address::OutOfMemory;
use apply_plan::leaving;
use entry_store::Store;
use indexmap::IndexMap;
use log_model::LeaveCause;
use nav_tree::NavTree;
use std::alloc::Global;
use tab_ids::{DocId, NavId, Step};
use tab_passes::{doc_on, docs_below};

/// The documents that the navigable and those below it are awake on, in the order of the walk.
fn docs_at(alloc: Global, tree: &NavTree, nav: NavId) -> Result<Vec<DocId>, OutOfMemory>
    ensures { IfOk result (λ docs. docs.items ≡ docs_at tree.now nav) }
{
    let below = docs_below(alloc, tree, nav)?;
    let own = doc_on(tree, nav);
    let docs = own
        .into_iter()
        .chain(below.as_slice().iter().copied())
        .collect(alloc)?;
    Ok(docs)
}

/// The questions to those of these documents that have a handler.
fn questions_to(
    alloc: Global,
    slots: &IndexMap<DocId, u8>,
    cause: LeaveCause,
    docs: &[DocId],
) -> Result<Vec<Question>, OutOfMemory>
    ensures { IfOk result (λ questions. questions.items ≡ questions_to slots.now.entries cause docs.now) }
{
    let questions = docs
        .iter()
        .filter_map(|doc| question_to(slots, cause, *doc))
        .collect(alloc)?;
    Ok(questions)
}

/// Whom a load or a reload of a navigable asks as it begins: the documents that this one and those below it are awake on and that have a handler, in the order of the walk. HTML Standard, "checking if unloading is canceled".
pub fn leave_questions(
    alloc: Global,
    tree: &NavTree,
    slots: &IndexMap<DocId, u8>,
    nav: NavId,
    cause: LeaveCause,
) -> Result<Vec<Question>, OutOfMemory>
    ensures { IfOk result (λ questions. questions.items ≡ leave_questions slots.now.entries cause tree.now nav) }
{
    let docs = docs_at(alloc, tree, nav)?;
    questions_to(alloc, slots, cause, docs.as_slice())
}

/// Whom a traversal to a step asks as it begins: the documents that it leaves and that have a handler, in the order of the walk. HTML Standard, "checking if unloading is canceled".
pub fn traverse_questions<S: Store>(
    alloc: Global,
    store: &S,
    tree: &NavTree,
    slots: &IndexMap<DocId, u8>,
    goal: Step,
) -> Result<Vec<Question>, OutOfMemory>
    ensures { IfOk result (λ questions. questions.items ≡ traverse_questions slots.now.entries (S.history store.now).rows goal.0 tree.now) }
{
    let docs = leaving(alloc, store, tree, goal)?;
    questions_to(alloc, slots, LeaveCause::Traverse, docs.as_slice())
}
