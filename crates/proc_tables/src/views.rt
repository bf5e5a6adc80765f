//! `Views`, the views of all documents, which a contract sees as pairs of a document and its view.
ghost use Rattle.std.specs.Prelude.{◌≡◌, [], false, None, IfOk, IfSome, IsErrOf, IsSomeAnd, OnErr, OnOk};
ghost use Rattle.doc_view.specs.Jobs.{IsForView, made_of_order};
ghost use Rattle.std.specs.Option.{option_copied};
ghost use Rattle.log_model.specs.Views.{after_task, made_by};
ghost use Rattle.proc_tables.specs.Views.{Acts, Becomes, Goes, HasRoom, Stays, view_at};

use address::OutOfMemory;
use doc_view::{ActError, View};
use indexmap::IndexMap;
use log_model::{Job, Made, Poke};
use std::alloc::Global;
use std::marker::Model;
use tab_ids::DocId;

/// The views of the documents that are there.
#[derive(Drop)]
pub struct Views {
    views: IndexMap<DocId, View>,
}

impl Model for Views {
    ghost use Rattle.std.specs.Prelude.{List};
    ghost use Rattle.log_model.specs.Views as spec;
    ghost use Rattle.tab_ids.specs.declared.DocId.{DocId};

    ghost Value = { List (DocId × spec.View) };

    ghost view = { λ v. v.views.entries };
}

impl Views {
    /// The views where no document is there. It takes no memory.
    pub fn new(alloc: Global) -> Views
        ensures { result ≡ [] }
    {
        Views {
            views: IndexMap::new(alloc),
        }
    }

    /// The view of a document, if it is there.
    pub fn of(&self, doc: DocId) -> Option<&View>
        ensures { option_copied result ≡ view_at self.now doc }
    {
        self.views.get(&doc)
    }

    /// A document is there from now on, with this view.
    pub fn add(&mut self, doc: DocId, view: View) -> Result<(), OutOfMemory>
        ensures ok { OnOk result (Becomes doc view self.old self.new) }
        ensures err { OnErr result (Stays self.old self.new) }
    {
        add_in(&mut self.views, doc, view)
    }

    /// Lets the document of a poke act on it.
    pub fn act(&mut self, poke: &Poke) -> Result<Made, ActError>
        requires room { IsSomeAnd (view_at self.old poke.now.doc) HasRoom }
        ensures acts { IfOk result (λ made. IfSome (view_at self.old poke.now.doc) (λ view. Acts view poke.now made self.old self.new)) }
        ensures not_running { IsErrOf result ActError.NotRunning → IfSome (view_at self.old poke.now.doc) (λ view. view.running ≡ false) }
        ensures not_rewritable { IsErrOf result ActError.NotRewritable → IfSome (view_at self.old poke.now.doc) (λ view. made_by view poke.now.action ≡ None) }
        ensures err { OnErr result (Stays self.old self.new) }
    {
        act_in(&mut self.views, poke)
    }

    /// Lets the document of an order do it.
    pub fn do_job(&mut self, job: &Job) -> Result<Option<Made>, OutOfMemory>
        requires room { IsSomeAnd (view_at self.old job.now.doc) HasRoom }
        requires doc { IsSomeAnd (view_at self.old job.now.doc) (λ view. job.now.doc ≡ view.doc) }
        requires task { IsForView job.now.task }
        ensures view { OnOk result (IfSome (view_at self.old job.now.doc) (λ view. Becomes job.now.doc (after_task view job.now.task) self.old self.new)) }
        ensures made { IfOk result (λ made. IfSome (view_at self.old job.now.doc) (λ view. made ≡ made_of_order view job.now.task)) }
        ensures err { OnErr result (Stays self.old self.new) }
    {
        do_in(&mut self.views, job)
    }

    /// A document is gone, and its view with it. Where it wasn't there, nothing changes.
    pub fn remove(&mut self, doc: DocId)
        ensures { Goes doc self.old self.new }
    {
        remove_in(&mut self.views, doc);
    }
}

fn add_in(views: &mut IndexMap<DocId, View>, doc: DocId, view: View) -> Result<(), OutOfMemory>
    ensures ok { OnOk result (Becomes doc view views.old.entries views.new.entries) }
    ensures err { OnErr result (Stays views.old.entries views.new.entries) }
{
    views.insert(doc, view)?;
    Ok(())
}

fn act_in(views: &mut IndexMap<DocId, View>, poke: &Poke) -> Result<Made, ActError>
    requires room { IsSomeAnd (view_at views.old.entries poke.now.doc) HasRoom }
    ensures acts { IfOk result (λ made. IfSome (view_at views.old.entries poke.now.doc) (λ view. Acts view poke.now made views.old.entries views.new.entries)) }
    ensures not_running { IsErrOf result ActError.NotRunning → IfSome (view_at views.old.entries poke.now.doc) (λ view. view.running ≡ false) }
    ensures not_rewritable { IsErrOf result ActError.NotRewritable → IfSome (view_at views.old.entries poke.now.doc) (λ view. made_by view poke.now.action ≡ None) }
    ensures err { OnErr result (Stays views.old.entries views.new.entries) }
{
    match views.get_mut(&poke.doc) {
        Some(view) => view.act(poke.req, &poke.action),
        None => unreachable!(),
    }
}

fn do_in(views: &mut IndexMap<DocId, View>, job: &Job) -> Result<Option<Made>, OutOfMemory>
    requires room { IsSomeAnd (view_at views.old.entries job.now.doc) HasRoom }
    requires doc { IsSomeAnd (view_at views.old.entries job.now.doc) (λ view. job.now.doc ≡ view.doc) }
    requires task { IsForView job.now.task }
    ensures view { OnOk result (IfSome (view_at views.old.entries job.now.doc) (λ view. Becomes job.now.doc (after_task view job.now.task) views.old.entries views.new.entries)) }
    ensures made { IfOk result (λ made. IfSome (view_at views.old.entries job.now.doc) (λ view. made ≡ made_of_order view job.now.task)) }
    ensures err { OnErr result (Stays views.old.entries views.new.entries) }
{
    match views.get_mut(&job.doc) {
        Some(view) => view.do_job(job),
        None => unreachable!(),
    }
}

fn remove_in(views: &mut IndexMap<DocId, View>, doc: DocId)
    ensures { Goes doc views.old.entries views.new.entries }
{
    views.swap_remove(&doc);
}
