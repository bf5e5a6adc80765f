//! `NavRunners`, the documents that run in one navigable, which a contract sees as pairs of a document and its epoch.
ghost use Rattle.std.specs.Prelude.{◌≡◌, [], true, fold, length, IfOk, OnErr, OnOk, None, Some};
ghost use Rattle.running_table.specs.Picking.{newer_runner};
ghost use Rattle.running_table.specs.Runners.{AreOnce, IsNewestOf, Turns};

use address::OutOfMemory;
use indexmap::IndexMap;
use std::alloc::Global;
use std::marker::Model;
use tab_ids::{DocId, Epoch};

/// The documents that run in one navigable, each under an epoch: one, or for a while a few.
#[derive(Drop)]
pub(crate) struct NavRunners {
    epochs: IndexMap<DocId, Epoch>,
}

impl Model for NavRunners {
    ghost use Rattle.std.specs.Prelude.{List};
    ghost use Rattle.tab_ids.specs.declared.DocId.{DocId};
    ghost use Rattle.tab_ids.specs.declared.Epoch.{Epoch};

    ghost Value = { List (DocId × Epoch) };

    ghost view = { λ r. r.epochs.entries };
}

impl NavRunners {
    /// The one document that runs.
    pub(crate) fn of(alloc: Global, doc: DocId, epoch: Epoch) -> Result<NavRunners, OutOfMemory>
        ensures { IfOk result (λ runners. Turns doc (Some epoch) [] runners) }
    {
        let mut epochs = IndexMap::new(alloc);
        epochs.insert(doc, epoch)?;
        Ok(NavRunners { epochs })
    }

    /// Whether none runs.
    pub(crate) fn is_empty(&self) -> bool
        ensures { result ≡ true → self.now ≡ [] }
    {
        self.epochs.is_empty()
    }

    /// How many run, each of them once.
    pub(crate) fn count(&self) -> usize
        ensures count { result ≡ length self.now }
        ensures once { AreOnce self.now }
    {
        count_of(&self.epochs)
    }

    /// A document runs under this epoch from now on, whatever it ran under before.
    pub(crate) fn put(&mut self, doc: DocId, epoch: Epoch) -> Result<(), OutOfMemory>
        ensures ok { OnOk result (Turns doc (Some epoch) self.old self.new) }
        ensures err { OnErr result (self.new ≡ self.old) }
    {
        put_in(&mut self.epochs, doc, epoch)
    }

    /// A document runs no more.
    pub(crate) fn remove(&mut self, doc: DocId)
        ensures { Turns doc None self.old self.new }
    {
        self.epochs.swap_remove(&doc);
    }

    /// The document that runs under the greatest epoch: of several the one of the lowest number.
    pub(crate) fn newest(&self) -> Option<DocId>
        ensures { IsNewestOf self.now result }
    {
        newest_of(&self.epochs)
    }
}

fn put_in(epochs: &mut IndexMap<DocId, Epoch>, doc: DocId, epoch: Epoch) -> Result<(), OutOfMemory>
    ensures ok { OnOk result (Turns doc (Some epoch) epochs.old.entries epochs.new.entries) }
    ensures err { OnErr result (epochs.new.entries ≡ epochs.old.entries) }
{
    epochs.insert(doc, epoch)?;
    Ok(())
}

fn count_of(epochs: &IndexMap<DocId, Epoch>) -> usize
    ensures count { result ≡ length epochs.now.entries }
    ensures once { AreOnce epochs.now.entries }
{
    epochs.len()
}

/// The document that runs under the greatest epoch.
fn newest_of(epochs: &IndexMap<DocId, Epoch>) -> Option<DocId>
    ensures { IsNewestOf epochs.now.entries result }
{
    // Its clause says that the documents are distinct.
    let _len = epochs.len();
    match pick(epochs) {
        Some((doc, _)) => Some(doc),
        None => None,
    }
}

/// The newest of all, with its epoch.
fn pick(epochs: &IndexMap<DocId, Epoch>) -> Option<(DocId, Epoch)>
    ensures { result ≡ fold newer_runner None epochs.now.entries }
{
    let mut newest = None;
    for (doc, epoch) in epochs.iter() {
        newest = Some(newer(newest, *doc, *epoch));
    }
    newest
}

/// The newest so far, or a further document that is newer.
fn newer(newest: Option<(DocId, Epoch)>, doc: DocId, epoch: Epoch) -> (DocId, Epoch)
    ensures { Some result ≡ newer_runner newest (doc, epoch) }
{
    match newest {
        None => (doc, epoch),
        Some((best, under)) => {
            if under.0 < epoch.0 || (under.0 == epoch.0 && doc.0 < best.0) {
                (doc, epoch)
            } else {
                (best, under)
            }
        }
    }
}
