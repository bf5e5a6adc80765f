//! `View`, which a contract sees as the record of the same name.
ghost use Rattle.std.specs.Prelude.{◌≡◌, ◌+◌, ◌^◌, ◌<◌, IfOk, OnOk, OnErr};
ghost use Rattle.std.specs.Option.{option_copied};
ghost use Rattle.log_model.specs.Views.{fresh_view, opening_view, new_entry, after_made};

mod actions;
mod orders;

use address::{Address, OutOfMemory, Text};
use log_model::{What, copy_memo};
use std::marker::Model;
use tab_ids::{DocId, EntryId, Epoch};

/// What a document shows of itself.
#[derive(Drop)]
pub struct View {
    doc: DocId,
    entry: EntryId,
    address: Address,
    memo: Option<Text>,
    length: u32,
    index: u32,
    epoch: Epoch,
    running: bool,
    dirty: bool,
    initial: bool,
    numbered: u32,
}

impl Model for View {
    ghost use Rattle.log_model.specs.Views as spec;

    ghost Value = { spec.View };

    ghost view = { λ v. record {
      doc = v.doc;
      entry = v.entry;
      address = v.address;
      memo = v.memo;
      length = v.length;
      index = v.index;
      epoch = v.epoch;
      running = v.running;
      dirty = v.dirty;
      initial = v.initial;
      numbered = v.numbered;
    } };
}

impl View {
    /// The view of a populated document that was never activated.
    pub fn fresh(doc: DocId, address: Address, initial: bool) -> View
        ensures { result ≡ fresh_view doc address initial }
    {
        View {
            doc,
            entry: EntryId { maker: 0, nr: 0 },
            address,
            memo: None,
            length: 1,
            index: 0,
            epoch: Epoch(0),
            running: false,
            dirty: false,
            initial,
            numbered: 0,
        }
    }

    /// The view of the document that a tab opens with: it runs, and it is initial where it is about:blank.
    pub fn opening(doc: DocId, entry: EntryId, address: Address) -> View
        ensures { result ≡ opening_view doc entry address }
    {
        let initial = address.text() == b"about:blank".as_slice();
        let mut view = View::fresh(doc, address, initial);
        view.entry = entry;
        view.epoch = Epoch(1);
        view.running = true;
        view
    }

    /// An equal view.
    pub fn copy(&self) -> Result<View, OutOfMemory>
        ensures { IfOk result (λ view. view ≡ self.now) }
    {
        let address = self.address.copy()?;
        let memo = copy_memo(&self.memo)?;
        Ok(View {
            doc: self.doc,
            entry: self.entry,
            address,
            memo,
            length: self.length,
            index: self.index,
            epoch: self.epoch,
            running: self.running,
            dirty: self.dirty,
            initial: self.initial,
            numbered: self.numbered,
        })
    }

    /// Makes a new entry the active one, by a push or in the place of the old one.
    fn enter(
        &mut self,
        pushes: bool,
        memo: Option<Text>,
        address: Address,
    ) -> Result<What, OutOfMemory>
        requires index { self.old.index + 2 < 2 ^ 32 }
        requires numbered { self.old.numbered + 1 < 2 ^ 32 }
        ensures what { IfOk result (λ what. what ≡ new_entry self.old pushes memo address) }
        ensures view { OnOk result (self.new ≡ after_made self.old (new_entry self.old pushes memo address)) }
        ensures err { OnErr result (self.new ≡ self.old) }
    {
        // What can fail comes first, so that an error changes nothing.
        let shown_memo = copy_memo(&memo)?;
        let shown_address = address.copy()?;
        let over = self.entry;
        let entry = EntryId {
            maker: self.doc.0,
            nr: self.numbered + 1,
        };
        self.entry = entry;
        self.address = shown_address;
        self.memo = shown_memo;
        self.numbered += 1;
        if pushes {
            self.index += 1;
            self.length = self.index + 1;
            Ok(What::Push {
                entry,
                memo,
                address,
            })
        } else {
            Ok(What::Replace {
                over,
                entry,
                memo,
                address,
            })
        }
    }

    /// The number of its document.
    pub fn doc(&self) -> DocId
        ensures { result ≡ self.now.doc }
    {
        self.doc
    }

    /// The active session history entry.
    pub fn entry(&self) -> EntryId
        ensures { result ≡ self.now.entry }
    {
        self.entry
    }

    /// The document's URL.
    pub fn address(&self) -> &Address
        ensures { result.now ≡ self.now.address }
    {
        &self.address
    }

    /// The history object's state.
    pub fn memo(&self) -> Option<&Text>
        ensures { option_copied result ≡ self.now.memo }
    {
        self.memo.as_ref()
    }

    /// The history object's length.
    pub fn length(&self) -> u32
        ensures { result ≡ self.now.length }
    {
        self.length
    }

    /// The history object's index, counted from 0.
    pub fn index(&self) -> u32
        ensures { result ≡ self.now.index }
    {
        self.index
    }

    /// The epoch of its last activation; 0 before the first.
    pub fn epoch(&self) -> Epoch
        ensures { result ≡ self.now.epoch }
    {
        self.epoch
    }

    /// Whether the document runs.
    pub fn running(&self) -> bool
        ensures { result ≡ self.now.running }
    {
        self.running
    }

    /// Whether it has unsaved edits.
    pub fn dirty(&self) -> bool
        ensures { result ≡ self.now.dirty }
    {
        self.dirty
    }

    /// Whether it is an initial about:blank document, where a push is a replace.
    pub fn initial(&self) -> bool
        ensures { result ≡ self.now.initial }
    {
        self.initial
    }

    /// How many entries the document has numbered.
    pub fn numbered(&self) -> u32
        ensures { result ≡ self.now.numbered }
    {
        self.numbered
    }
}
