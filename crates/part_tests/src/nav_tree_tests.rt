//! The calls that allocate, once each.
use nav_tree::NavTree;
use std::test::Fail;
use tab_ids::{DocId, ProcId, StateId};

#[test]
fn a_tree_with_one_document_more(rt: HostRuntime) -> Result<(), Fail> {
    let mut tree = NavTree::fresh(rt.alloc(), DocId(1), ProcId(1), Some(0)).map_err(|_| "memory")?;
    tree.place(StateId(2), DocId(2), ProcId(1), None)
        .map_err(|_| "memory")?;
    assert!(rt; tree.is_live(StateId(2)));
    let docs = tree.docs().map_err(|_| "memory")?;
    assert_eq!(rt; docs.as_slice(), [DocId(1), DocId(2)].as_slice());
    Ok(())
}
