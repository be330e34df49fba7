//! Another identifier of a file's data.

ghost use Rattle.std.specs.Prelude.{◌≡◌, OnOk, OnErr, IfErr, IfSome, option_map};
ghost use Rattle.store_model.specs.Disk.{WhereBothTold};
ghost use Rattle.store_model.specs.Plans.{FailsToChange};
ghost use Rattle.log_write.specs.Writing as writes;
ghost use Rattle.log_write.specs.Writing.{HasNextNumber, identified_header};
ghost use Rattle.layer_session.specs.FileLayers.{FileCanBeRead, FileHoldsStill, FileIsReady, HasSession, WaitsForNone, log_header, log_number, number_of, table_parts};
ghost use Rattle.layer_session.specs.Identifying.{FileHasIdentified, FileIdentifiesOver, HasIdentified, IdentifiesOver};
ghost use Rattle.layer_session.specs.Keeping.{IsReady};
ghost use Rattle.layer_session.specs.ByLayers.{ReadsOn};

use crate::file::Layer;
use crate::file_layer::FileLayer;
use store_model::{Store, StoreFault};
use vx_base::Guid;

impl Layer {
    /// Gives the file's data another identifier, by the next header of its session: at each moment a crash leaves the file with the
    /// identifier that it had, or with this one. What the file holds stays, and so do changed pages that wait for a commit. Takes no
    /// memory. After a fault the file is to be written no more; reads go on.
    pub fn identify<S: Store>(&mut self, store: &mut S, id: Guid) -> Result<(), StoreFault>
        requires ready { IsReady self.old (S.disk store.old) }
        requires header { HasNextNumber self.old.log.header }
        // At each moment, whatever it answers, in every image without a torn match.
        ensures moments { WhereBothTold (IdentifiesOver self.old id) (S.disk store.old).told (S.disk store.new).told }
        ensures identified { OnOk result (WhereBothTold (HasIdentified self.old self.new id) (S.disk store.old).told (S.disk store.new).told) }
        ensures ready { OnOk result (IsReady self.new (S.disk store.new)) }
        ensures log { OnOk result (self.new.log ≡ writes.identified self.old.log id) }
        ensures kept { OnErr result (self.new ≡ self.old) }
        ensures number { self.new.log.number ≡ self.old.log.number }
        ensures tables { self.new.tables ≡ self.old.tables }
        ensures space { self.new.space ≡ self.old.space }
        ensures leave { self.new.leave ≡ self.old.leave }
        ensures plans { self.new.plans ≡ self.old.plans }
        ensures broken { OnErr result (ReadsOn self.old self.new 0 0 (S.disk store.old) (S.disk store.new)) }
        ensures counts { OnOk result (S.disk store.new ≡ record (S.disk store.old) { told = (S.disk store.new).told }) }
        ensures err { IfErr result (FailsToChange self.old.tables.parts.file (S.disk store.old) (S.disk store.new)) }
    {
        self.log.identify(store, id)
    }
}

impl FileLayer {
    /// Gives the data of a file in a session another identifier, as `Layer::identify` does.
    pub fn identify<S: Store>(&mut self, store: &mut S, id: Guid) -> Result<(), StoreFault>
        requires session { HasSession self.old }
        requires ready { FileIsReady self.old (S.disk store.old) }
        requires header { IfSome (log_header self.old) HasNextNumber }
        // At each moment, whatever it answers, in every image without a torn match.
        ensures moments { WhereBothTold (FileIdentifiesOver self.old id) (S.disk store.old).told (S.disk store.new).told }
        ensures identified { OnOk result (WhereBothTold (FileHasIdentified self.old self.new id) (S.disk store.old).told (S.disk store.new).told) }
        ensures ready { OnOk result (FileIsReady self.new (S.disk store.new)) }
        ensures header { OnOk result (log_header self.new ≡ option_map (λ header. identified_header header id) (log_header self.old)) }
        ensures kept { OnErr result (self.new ≡ self.old) }
        ensures empty { WaitsForNone self.old → WaitsForNone self.new }
        ensures number { log_number self.new ≡ log_number self.old }
        ensures session { HasSession self.new }
        ensures parts { table_parts self.new ≡ table_parts self.old }
        ensures readable { OnErr result (FileCanBeRead self.new (S.disk store.new)) }
        ensures holds { OnErr result (WhereBothTold (FileHoldsStill self.old self.new) (S.disk store.old).told (S.disk store.new).told) }
        ensures counts { OnOk result (S.disk store.new ≡ record (S.disk store.old) { told = (S.disk store.new).told }) }
        ensures err { IfErr result (FailsToChange (number_of self.old) (S.disk store.old) (S.disk store.new)) }
    {
        match self {
            FileLayer::Session(layer) => layer.identify(store, id),
            FileLayer::Read(_) => Ok(()),
        }
    }
}
