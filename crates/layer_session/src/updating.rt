//! An entry of the log that changes a file's metadata.

ghost use Rattle.std.specs.Prelude.{◌≡◌, ◌+◌, ◌-◌, ◌^◌, ◌≤◌, [], length, OnOk, OnErr, IfErr};
ghost use Rattle.store_model.specs.Disk.{WhereTold, WhereBothTold};
ghost use Rattle.store_model.specs.Plans.{FailsToChange};
ghost use Rattle.log_format.specs.PendingPages.{HasOnePageEach};
ghost use Rattle.layer_session.specs.Keeping.{IsReady};
ghost use Rattle.layer_session.specs.Updating.{HasUpdated, Turns, UpdatesOver};
ghost use Rattle.layer_session.specs.ByLayers.{MayCommit, ReadsOn};

use crate::file::Layer;
use crate::plain::write_plainly;
use log_format::Page;
use store_model::{Store, StoreFault};

impl Layer {
    /// Commits pages that change the file's metadata, as one entry of its log: at each moment a crash leaves the file tied as
    /// before, or anew. Nothing else waits for a commit. After a fault the file is to be written no more; reads go on.
    pub fn update<S: Store>(&mut self, store: &mut S, pages: &[Page]) -> Result<(), StoreFault>
        requires ready { IsReady self.old (S.disk store.old) }
        requires empty { self.old.tables.pending ≡ [] }
        requires numbers { self.old.log.number ≤ 2 ^ 64 - 2 ^ 32 }
        requires few { length pages.now ≤ 120 }
        requires apart { HasOnePageEach pages.now }
        requires turns { WhereTold (S.disk store.old).told (Turns self.old pages.now) }
        // At each moment, whatever it answers, in every image without a torn match.
        ensures moments { WhereBothTold (UpdatesOver self.old pages.now) (S.disk store.old).told (S.disk store.new).told }
        ensures updated { OnOk result (WhereBothTold (HasUpdated self.old self.new pages.now) (S.disk store.old).told (S.disk store.new).told) }
        ensures ready { OnOk result (IsReady self.new (S.disk store.new)) }
        ensures empty { OnOk result (self.new.tables.pending ≡ []) }
        ensures number { self.new.log.number ≤ self.old.log.number + 1 }
        ensures header { self.new.log.header ≡ self.old.log.header }
        ensures parts { self.new.tables.parts ≡ self.old.tables.parts }
        ensures leave { self.new.leave ≡ self.old.leave }
        ensures plans { self.new.plans ≡ self.old.plans }
        // Places that were freed can be taken.
        ensures space { OnOk result (MayCommit self.old.space self.new.space) }
        ensures broken { OnErr result (ReadsOn self.old self.new 0 0 (S.disk store.old) (S.disk store.new)) }
        ensures counts { OnOk result (S.disk store.new ≡ record (S.disk store.old) { told = (S.disk store.new).told }) }
        ensures err { IfErr result (FailsToChange self.old.tables.parts.file (S.disk store.old) (S.disk store.new)) }
    {
        if !self.can_take(pages) {
            return write_plainly(store, self.tables.parts.file, pages);
        }
        // Where a change fails, reads go on over these pages.
        self.tables.put_pages(pages);
        self.log.commit(store, &mut self.tables.pending)?;
        self.space.committed();
        Ok(())
    }
}
