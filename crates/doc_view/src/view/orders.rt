//! What an order does to a document.
ghost use Rattle.std.specs.Prelude.{◌≡◌, ◌+◌, ◌^◌, ◌<◌, IfOk, OnOk, OnErr};
ghost use Rattle.log_model.specs.Views.{is_fragment_replace, after_task};
ghost use Rattle.doc_view.specs.Jobs.{IsForView, made_of_order};

use crate::view::View;
use address::{Address, OutOfMemory, Text};
use log_model::{Job, Made, Mode, Task, copy_memo};
use tab_ids::{EntryId, Epoch, ReqId};

impl View {
    /// Does an order to this document, and answers what the document made for it.
    pub fn do_job(&mut self, job: &Job) -> Result<Option<Made>, OutOfMemory>
        requires index { self.old.index + 2 < 2 ^ 32 }
        requires numbered { self.old.numbered + 1 < 2 ^ 32 }
        requires doc { job.now.doc ≡ self.old.doc }
        requires task { IsForView job.now.task }
        ensures made { IfOk result (λ made. made ≡ made_of_order self.old job.now.task) }
        ensures view { OnOk result (self.new ≡ after_task self.old job.now.task) }
        ensures err { OnErr result (self.new ≡ self.old) }
    {
        match &job.task {
            Task::Activate {
                entry,
                epoch,
                length,
                index,
                memo,
                address,
            } => {
                self.activate(*entry, *epoch, (*length, *index), memo, address)?;
                Ok(None)
            }
            Task::Update { length, index } => {
                self.length = *length;
                self.index = *index;
                Ok(None)
            }
            Task::Freeze => {
                self.running = false;
                Ok(None)
            }
            Task::Ask { .. } => Ok(None),
            Task::DoFragment { req, mode, address } => self.go_to_fragment(*req, *mode, address),
            Task::Populate { .. } | Task::Discard => unreachable!(),
        }
    }

    /// "Navigate to a fragment", where the document runs.
    fn go_to_fragment(
        &mut self,
        req: ReqId,
        mode: Mode,
        address: &Address,
    ) -> Result<Option<Made>, OutOfMemory>
        requires index { self.old.index + 2 < 2 ^ 32 }
        requires numbered { self.old.numbered + 1 < 2 ^ 32 }
        ensures made { IfOk result (λ made. made ≡ made_of_order self.old (Task.DoFragment req mode address.now)) }
        ensures view { OnOk result (self.new ≡ after_task self.old (Task.DoFragment req mode address.now)) }
        ensures err { OnErr result (self.new ≡ self.old) }
    {
        if !self.running {
            return Ok(None);
        }
        let doc = self.doc;
        let epoch = self.epoch;
        let pushes = !self.replaces_by_fragment(mode, address);
        let address = address.copy()?;
        let what = self.enter(pushes, None, address)?;
        Ok(Some(Made {
            req,
            doc,
            epoch,
            what,
        }))
    }

    /// Whether a navigation to a fragment replaces the active entry.
    fn replaces_by_fragment(&self, mode: Mode, address: &Address) -> bool
        ensures { result ≡ is_fragment_replace self.now mode address.now }
    {
        match mode {
            Mode::Auto => self.initial || address.text() == self.address.text(),
            Mode::Push => self.initial,
            Mode::Replace => true,
        }
    }

    /// "Activate history entry": the document shows the entry and runs.
    fn activate(
        &mut self,
        entry: EntryId,
        epoch: Epoch,
        pair: (u32, u32),
        memo: &Option<Text>,
        address: &Address,
    ) -> Result<(), OutOfMemory>
        ensures ok { OnOk result (self.new
            ≡ after_task self.old (Task.Activate entry epoch pair.0 pair.1 memo.now address.now)) }
        ensures err { OnErr result (self.new ≡ self.old) }
    {
        // What can fail comes first, so that an error changes nothing.
        let memo = copy_memo(memo)?;
        let address = address.copy()?;
        self.entry = entry;
        self.address = address;
        self.memo = memo;
        self.length = pair.0;
        self.index = pair.1;
        self.epoch = epoch;
        self.running = true;
        Ok(())
    }
}
