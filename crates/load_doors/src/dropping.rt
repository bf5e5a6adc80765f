//! A load is dropped.
ghost use Rattle.std.specs.Prelude.{◌≡◌, ◌++◌, ◌∷◌, [], None, false, OnOk};
ghost use Rattle.seen_facts.specs.Each.Runs.{is_this};
ghost use Rattle.load_doors.specs.Loading.{IsOpenHere};
ghost use Rattle.seen_facts.specs.LoadTies.Tying.{HasLoad};
ghost use Rattle.log_model.specs.declared.outcome.Cause.TheVariants as drops;
ghost use Rattle.log_model.specs.declared.row_kind.RowKind.TheVariants as rows;
ghost use Rattle.seen_laws.specs.InEvent.{InEvent, now_of};
ghost use Rattle.tab_doors.specs.Dues.{IsDestroyDue};
ghost use Rattle.tab_doors.specs.Keeping.{IsNoLoad};
ghost use Rattle.tab_doors.specs.Working.{InSweep, IsAtWork, IsAtWorkIn, KeepsStore};

use address::OutOfMemory;
use log_model::{Cause, Out, RowKind};
use tab_doors::Tables;
use tab_ids::{NavId, ReqId};

/// The load of a navigable is dropped for another request. That it has its cause there is owed to the event's end.
pub fn drop_load(
    tables: &mut Tables,
    out: &mut Out,
    nav: NavId,
    req: ReqId,
    by: ReqId,
) -> Result<(), OutOfMemory>
    ghost e: { InEvent }
    requires work { IsAtWork e out.old tables.old }
    requires is_open { IsOpenHere e out.old req }
    requires apart { is_this tables.old.running req ≡ false }
    requires its { HasLoad tables.old.loads nav req }
    ensures work { OnOk result (IsAtWork e out.new tables.new) }
    ensures out { OnOk result (out.new ≡ out.old ++ rows.Dropped req (drops.By by) ∷ []) }
    ensures kept { OnOk result (KeepsStore tables.old tables.new) }
{
    out.push(RowKind::Dropped {
        req,
        cause: Cause::By(by),
    })?;
    tables.loads.cancel(nav);
    Ok(())
}

/// A load that hasn't begun is dropped for another request, as is one that was sent to a fragment. That it has its cause there is owed to the event's end.
pub fn drop_new(
    tables: &mut Tables,
    out: &mut Out,
    req: ReqId,
    by: ReqId,
) -> Result<(), OutOfMemory>
    ghost e: { InEvent }
    requires work { IsAtWork e out.old tables.old }
    requires is_open { IsOpenHere e out.old req }
    requires apart { is_this tables.old.running req ≡ false }
    requires no_load { IsNoLoad (now_of e out.old) req }
    requires off { e.checking req ≡ false }
    ensures work { OnOk result (IsAtWork e out.new tables.new) }
    ensures out { OnOk result (out.new ≡ out.old ++ rows.Dropped req (drops.By by) ∷ []) }
    ensures tables { tables.new ≡ tables.old }
{
    out.push(RowKind::Dropped {
        req,
        cause: Cause::By(by),
    })?;
    Ok(())
}

/// The load of a navigable is dropped by the request whose change took the navigable's last entries.
pub fn destroy_load(
    tables: &mut Tables,
    out: &mut Out,
    nav: NavId,
    req: ReqId,
    by: ReqId,
) -> Result<(), OutOfMemory>
    ghost s: { InSweep }
    requires work { IsAtWorkIn s.sweeps None s.event out.old tables.old }
    requires due { IsDestroyDue s.event out.old req by }
    requires apart { is_this tables.old.running req ≡ false }
    requires its { HasLoad tables.old.loads nav req }
    ensures work { OnOk result (IsAtWorkIn s.sweeps None s.event out.new tables.new) }
    ensures out { OnOk result (out.new ≡ out.old ++ rows.Dropped req (drops.Destroyed by) ∷ []) }
    ensures kept { OnOk result (KeepsStore tables.old tables.new) }
{
    out.push(RowKind::Dropped {
        req,
        cause: Cause::Destroyed(by),
    })?;
    tables.loads.cancel(nav);
    Ok(())
}
