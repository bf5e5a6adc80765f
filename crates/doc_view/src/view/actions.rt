//! What a document makes of an action.
ghost use Rattle.std.specs.Prelude.{◌≡◌, ◌+◌, ◌^◌, ◌<◌, ◌↔◌, true, false, Some, None, IfOk, OnOk, OnErr, IsErrOf};
ghost use Rattle.std.specs.Result.{result_ok};
ghost use Rattle.address.specs.Addresses as addresses;
ghost use Rattle.log_model.specs.Views.{new_address, made_by, made_for, after_made};
ghost use Rattle.doc_view.specs.Refusals.{Gives};

use crate::error::ActError;
use crate::view::View;
use address::{Address, Text, rewritable};
use log_model::{Action, Made, What, copy_memo};
use tab_ids::ReqId;

impl View {
    /// Lets the document act on a request. A refusal is answered in the order of the variants of `ActError`.
    pub fn act(&mut self, req: ReqId, action: &Action) -> Result<Made, ActError>
        requires index { self.old.index + 2 < 2 ^ 32 }
        requires numbered { self.old.numbered + 1 < 2 ^ 32 }
        ensures running { OnOk result (self.old.running ≡ true) }
        ensures what { IfOk result (λ made. made_by self.old action.now ≡ Some made.what) }
        ensures made { IfOk result (λ made. made ≡ made_for self.old req made.what) }
        ensures view { IfOk result (λ made. self.new ≡ after_made self.old made.what) }
        ensures not_running { IsErrOf result ActError.NotRunning ↔ (self.old.running ≡ false) }
        ensures not_rewritable { IsErrOf result ActError.NotRewritable
            → (self.old.running ≡ true) × (made_by self.old action.now ≡ None) }
        ensures err { OnErr result (self.new ≡ self.old) }
    {
        if !self.running {
            return Err(ActError::NotRunning);
        }
        let doc = self.doc;
        let epoch = self.epoch;
        let what = self.make(action)?;
        Ok(Made {
            req,
            doc,
            epoch,
            what,
        })
    }

    /// What a running document makes of an action.
    fn make(&mut self, action: &Action) -> Result<What, ActError>
        requires index { self.old.index + 2 < 2 ^ 32 }
        requires numbered { self.old.numbered + 1 < 2 ^ 32 }
        ensures what { Gives result (made_by self.old action.now) }
        ensures view { IfOk result (λ what. self.new ≡ after_made self.old what) }
        ensures err { OnErr result (self.new ≡ self.old) }
    {
        match action {
            Action::Push { memo, reference } => {
                let address = self.new_address(reference)?;
                let memo = copy_memo(memo)?;
                let pushes = !self.initial;
                let what = self.enter(pushes, memo, address)?;
                Ok(what)
            }
            Action::Replace { memo, reference } => {
                let address = self.new_address(reference)?;
                let memo = copy_memo(memo)?;
                let what = self.enter(false, memo, address)?;
                Ok(what)
            }
            Action::Fragment { text } => {
                let address = self.with_fragment(text)?;
                let pushes = !self.initial && address.text() != self.address.text();
                let what = self.enter(pushes, None, address)?;
                Ok(what)
            }
            Action::AddFrame { nav } => Ok(What::AddFrame { nav: *nav }),
            Action::RemoveFrame { nav } => Ok(What::RemoveFrame { nav: *nav }),
            Action::Go { delta } => Ok(What::Go { delta: *delta }),
            Action::Edit => {
                self.dirty = true;
                Ok(What::Edit)
            }
        }
    }

    /// The address of a push or a replace: the document's own where no reference is given.
    fn new_address(&self, reference: &Option<Text>) -> Result<Address, ActError>
        ensures { Gives result (new_address self.now reference.now) }
    {
        match reference {
            None => {
                let address = self.address.copy()?;
                Ok(address)
            }
            Some(reference) => self.rewritten(reference),
        }
    }

    /// The address of a reference, where the document may be rewritten to it.
    fn rewritten(&self, reference: &Text) -> Result<Address, ActError>
        ensures { Gives result (new_address self.now (Some reference.now)) }
    {
        match self.address.resolve(reference.bytes()) {
            Ok(address) => {
                if rewritable(&self.address, &address) {
                    Ok(address)
                } else {
                    Err(ActError::NotRewritable)
                }
            }
            Err(error) => Err(ActError::of_address(error)),
        }
    }

    /// The document's address with another fragment.
    fn with_fragment(&self, text: &Text) -> Result<Address, ActError>
        ensures { Gives result (result_ok (addresses.with_fragment self.now.address text.now)) }
    {
        match self.address.with_fragment(text.bytes()) {
            Ok(address) => Ok(address),
            Err(error) => Err(ActError::of_address(error)),
        }
    }
}
