//! The doors of requests: a traversal begins, and a request is refused or dropped.
ghost use Rattle.std.specs.Prelude.{◌≡◌, ◌++◌, ◌∷◌, [], false, OnOk, Some, None};
ghost use Rattle.log_model.specs.declared.outcome.Cause.TheVariants as drops;
ghost use Rattle.log_model.specs.declared.outcome.Denial.TheVariants as denials;
ghost use Rattle.log_model.specs.declared.row_kind.RowKind.TheVariants as rows;
ghost use Rattle.seen_facts.specs.Each.Runs.{is_this};
ghost use Rattle.seen_laws.specs.InEvent.{InEvent, log_of, now_of};
ghost use Rattle.tab_doors.specs.Dues.{AsksNone, IsBeginDue, IsNowhere, IsDenyDue, IsDestroyDue, IsDropDue};
ghost use Rattle.tab_doors.specs.Keeping.{IsNoLoad};
ghost use Rattle.tab_doors.specs.Working.{IsAtWork};
ghost use Rattle.unasked_dues.specs.Checking.{NoStepChecks};

use crate::tables::Tables;
use address::OutOfMemory;
use log_model::{Cause, Denial, Out, RowKind};
use tab_ids::{ReqId, Step};

impl Tables {
    /// A traversal begins that leaves no document with a handler.
    pub fn begin(&mut self, out: &mut Out, req: ReqId, goal: Step) -> Result<(), OutOfMemory>
        ghost e: { InEvent }
        requires work { IsAtWork e out.old self.old }
        requires none { self.old.running ≡ None }
        requires due { IsBeginDue (now_of e out.old) req goal }
        requires unasked { AsksNone (log_of e out.old) req (Some goal) }
        requires free { NoStepChecks e.checking (log_of e []) }
        ensures work { OnOk result (IsAtWork e out.new self.new) }
        ensures out { OnOk result (out.new ≡ out.old ++ rows.Started req (Some goal) ∷ []) }
        ensures tables { OnOk result (self.new ≡ record self.old { running = Some req; goal = goal }) }
    {
        out.push(RowKind::Started {
            req,
            goal: Some(goal),
        })?;
        self.running = Some(req);
        self.goal = goal;
        Ok(())
    }

    /// A traversal whose delta leads nowhere is refused.
    pub fn refuse(&mut self, out: &mut Out, req: ReqId) -> Result<(), OutOfMemory>
        ghost e: { InEvent }
        requires work { IsAtWork e out.old self.old }
        requires nowhere { IsNowhere e out.old req }
        requires apart { is_this self.old.running req ≡ false }
        requires free { NoStepChecks e.checking (log_of e []) }
        ensures work { OnOk result (IsAtWork e out.new self.new) }
        ensures out { OnOk result (out.new ≡ out.old ++ rows.Refused req denials.NoStep ∷ []) }
        ensures tables { self.new ≡ self.old }
    {
        out.push(RowKind::Refused {
            req,
            reason: Denial::NoStep,
        })?;
        Ok(())
    }

    /// What a document made is refused as its report is taken: a new frame's number is taken, or the frame to be removed isn't the document's.
    pub fn deny(&mut self, out: &mut Out, req: ReqId, reason: Denial) -> Result<(), OutOfMemory>
        ghost e: { InEvent }
        requires work { IsAtWork e out.old self.old }
        requires due { IsDenyDue e out.old req reason }
        requires apart { is_this self.old.running req ≡ false }
        ensures work { OnOk result (IsAtWork e out.new self.new) }
        ensures out { OnOk result (out.new ≡ out.old ++ rows.Refused req reason ∷ []) }
        ensures tables { self.new ≡ self.old }
    {
        out.push(RowKind::Refused { req, reason })?;
        Ok(())
    }

    /// What a document made is dropped by the request whose change took its navigable's last entries.
    pub fn destroy(&mut self, out: &mut Out, req: ReqId, by: ReqId) -> Result<(), OutOfMemory>
        ghost e: { InEvent }
        requires work { IsAtWork e out.old self.old }
        requires due { IsDestroyDue e out.old req by }
        requires apart { is_this self.old.running req ≡ false }
        requires no_load { IsNoLoad (now_of e out.old) req }
        requires off { e.checking req ≡ false }
        ensures work { OnOk result (IsAtWork e out.new self.new) }
        ensures out { OnOk result (out.new ≡ out.old ++ rows.Dropped req (drops.Destroyed by) ∷ []) }
        ensures tables { self.new ≡ self.old }
    {
        out.push(RowKind::Dropped {
            req,
            cause: Cause::Destroyed(by),
        })?;
        Ok(())
    }

    /// What a document made is dropped by the request that moved its navigable on.
    pub fn drop_moved(&mut self, out: &mut Out, req: ReqId, by: ReqId) -> Result<(), OutOfMemory>
        ghost e: { InEvent }
        requires work { IsAtWork e out.old self.old }
        requires due { IsDropDue e out.old req by }
        requires apart { is_this self.old.running req ≡ false }
        requires no_load { IsNoLoad (now_of e out.old) req }
        requires off { e.checking req ≡ false }
        ensures work { OnOk result (IsAtWork e out.new self.new) }
        ensures out { OnOk result (out.new ≡ out.old ++ rows.Dropped req (drops.By by) ∷ []) }
        ensures tables { self.new ≡ self.old }
    {
        out.push(RowKind::Dropped {
            req,
            cause: Cause::By(by),
        })?;
        Ok(())
    }
}
