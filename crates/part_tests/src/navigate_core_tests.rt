//! What no clause says: that memory suffices.
use address::Address;
use load_table::{Load, Phase};
use log_model::Change;
use navigate_core::finalise;
use std::test::*;
use tab_ids::{DocId, EntryId, NavId, ReqId, StateId};

#[test]
fn a_load_pushes_or_replaces(rt: HostRuntime) -> Result<(), Fail> {
    for replace in [false, true] {
        let address = Address::read(rt.alloc(), b"http://a.test/1")?;
        let load = Load {
            req: ReqId(3),
            nav: NavId(1),
            address,
            replace,
            state: StateId(2),
            phase: Phase::Ready(DocId(2)),
        };
        let change = finalise(
            &load,
            EntryId { maker: 0, nr: 1 },
            EntryId { maker: 0, nr: 2 },
        )?;
        let is_replace = matches!(change, Change::Replace { .. });
        assert_eq!(rt; is_replace, replace);
    }
    Ok(())
}
