//! A file in a session, as the layer that it is in a chain.

ghost use Rattle.std.specs.Prelude.{◌≡◌, ◌+◌, ◌-◌, ◌*◌, ◌/◌, ◌^◌, ◌<◌, ◌≤◌, ◌↔◌, [], None, length, All, IsTrue, IfOk, IfErr, OnOk, OnErr, Ok, Err};
ghost use Rattle.store_model.specs.Disk.{ReadFailed, WhereTold, WhereBothTold};
ghost use Rattle.store_model.specs.Plans.{FailsToChange};
ghost use Rattle.vx_base.specs.Fields.{zeros};
ghost use Rattle.vhdx_format.specs.Fields.{megabyte};
ghost use Rattle.vhdx_format.specs.FileParts.{HasNumbers};
ghost use Rattle.log_write.specs.Writing.{BeginFails, CanCommit, session_header};
ghost use Rattle.table_pages.specs.Held.{IsNew};
ghost use Rattle.chain_model.specs.Layers as chain;
ghost use Rattle.layer_session.specs.Calls as calls;
ghost use Rattle.layer_session.specs.Calls.{Fails, HasCommitted, HasEnded, IsSame, KeepsOver, PutsInto};
ghost use Rattle.layer_session.specs.Keeping.{IsReadable, IsReady};
ghost use Rattle.layer_session.specs.Begins.{BeginsOver, CanServe, HasBegun, IsOf};
ghost use Rattle.layer_session.specs.Steps.{StandFrom};
ghost use Rattle.layer_session.specs.Taking.{IsBroken, KeepsEntries};
ghost use Rattle.layer_session.specs.Closes.{HasClosed};
ghost use Rattle.layer_session.specs.Found.{KeepsFound};
ghost use Rattle.layer_session.specs.ReadOnly.{CanRead};
ghost use Rattle.layer_session.specs.ByLayers.{AddsHeld, HasWritten, MayCommit, ReadsOn, TellsAllSame};

use crate::plain::write_plainly;
use crate::planning::{Plan, Step};
use crate::read_layer::ReadLayer;
use crate::reading::own_missing;
use block_alloc::Alloc;
use log_format::Page;
use log_write::{Log, SessionIds};
use std::alloc::Global;
use store_model::{SealFault, Store, StoreFault};
use table_pages::{TableParts, Tables};
use vhdx_format::MEGABYTE;
use vx_base::{NoRoom, Parts};

/// How many blocks a call touches at most.
const MOST_BLOCKS: usize = 257;

/// Why a call didn't do what was asked: a read of the file failed, or a change of it; or a block would end behind the
/// greatest unit, where `next` is the unit at the file's end.
#[derive(Clone, Copy)]
pub enum LayerFault {
    Read(StoreFault),
    Write(StoreFault),
    FileFull { next: u64 },
}

/// A file in a session: of each sector of the disk its bytes, or that the file doesn't have it.
pub struct Layer {
    pub(crate) tables: Tables,
    pub(crate) log: Log,
    pub(crate) space: Alloc,
    pub(crate) leave: bool,
    pub(crate) zeros: Vec<u8>,
    pub(crate) plans: Vec<Plan>,
}

impl Drop for Layer {
    fn drop(self) {
        let Layer {
            tables: _,
            log: _,
            space: _,
            leave: _,
            zeros: _,
            plans: _,
        } = self;
    }
}

// Zeros to be written.
#[tactic(auto, unfolding(vx_base::specs::Fields::zeros))]
fn zeros_of(alloc: Global, n: usize) -> Result<Vec<u8>, NoRoom>
    ensures { IfOk result (λ made. made.items ≡ zeros n) }
{
    Ok(vec![in alloc; 0u8; n]?)
}

// Room for what a call is to do.
fn plans_of(alloc: Global) -> Result<Vec<Plan>, NoRoom>
    ensures { IfOk result (λ made. length made.items ≡ 257) }
{
    let none = Plan {
        step: Step::Leave,
        word: 0,
        bitmap: 0,
    };
    Ok(vec![in alloc; none; MOST_BLOCKS]?)
}

// What a layer keeps in memory.
#[derive(Drop)]
struct Room {
    tables: Tables,
    zeros: Vec<u8>,
    plans: Vec<Plan>,
}

impl Room {
    fn new(alloc: Global, parts: TableParts, pages: u32) -> Result<Room, NoRoom>
        requires pages { 0 < pages }
        ensures tables { IfOk result (λ room. IsNew parts room.tables) }
        ensures zeros { IfOk result (λ room. room.zeros.items ≡ zeros megabyte) }
        ensures plans { IfOk result (λ room. length room.plans.items ≡ 257) }
    {
        Ok(Room {
            tables: Tables::new(alloc, parts, pages)?,
            zeros: zeros_of(alloc, MEGABYTE as usize)?,
            plans: plans_of(alloc)?,
        })
    }
}

impl Layer {
    /// Begins the session of a file of these numbers, with room for so many pages of its tables in memory. Where `ids` has a new
    /// identifier of its data the file gets that.
    pub fn begin<S: Store>(
        alloc: Global,
        store: &mut S,
        file: u32,
        parts: &Parts,
        ids: SessionIds,
        pages: u32,
    ) -> Result<Layer, SealFault>
        requires there { file < (S.disk store.old).files }
        requires pages { 0 < pages }
        requires numbers { HasNumbers parts.now }
        requires low { parts.now.header.number ≤ 2 ^ 64 - 2 ^ 32 }
        requires ready { WhereTold (S.disk store.old).told (CanServe parts.now ids.log file) }
        // At each moment, whatever it answers, in every image without a torn match.
        ensures moments { WhereBothTold (BeginsOver parts.now ids file) (S.disk store.old).told (S.disk store.new).told }
        ensures served { IfOk result (λ l. WhereBothTold (HasBegun parts.now ids file l) (S.disk store.old).told (S.disk store.new).told) }
        ensures ready { IfOk result (λ l. IsReady l (S.disk store.new)) }
        ensures parts { IfOk result (λ l. IsOf parts.now file l) }
        ensures header { IfOk result (λ l. l.log.header ≡ session_header parts.now.header ids) }
        ensures empty { IfOk result (λ l. l.tables.pending ≡ []) }
        ensures counts { OnOk result (S.disk store.new ≡ record (S.disk store.old) { told = (S.disk store.new).told }) }
        ensures err { IfErr result (BeginFails file (S.disk store.old) (S.disk store.new)) }
    {
        let room = match Room::new(alloc, TableParts::new(file, parts), pages) {
            Ok(room) => room,
            Err(_) => return Err(SealFault::NoRoom),
        };
        let log = Log::begin(alloc, store, file, parts.header, ids)?;
        let space = Alloc::new(log.file_len().div_ceil(MEGABYTE));
        Ok(Layer {
            tables: room.tables,
            log,
            space,
            leave: parts.leave,
            zeros: room.zeros,
            plans: room.plans,
        })
    }

    /// Adds what the file has of so many sectors from `first` on to what was found of them: their bytes, and their bits in the
    /// mask from `at` on. What was found stays as it is; with a mask of zeros it says then which sectors the file has.
    pub fn own<S: Store>(
        &mut self,
        store: &mut S,
        first: u64,
        count: u64,
        out: &mut [u8],
        mask: &mut [u8],
        at: usize,
    ) -> Result<(), StoreFault>
        requires readable { IsReadable self.old (S.disk store.old) }
        requires on_disk { first + count ≤ self.old.tables.parts.sectors }
        requires out { length out.old ≡ self.old.tables.parts.sector * count }
        requires mask { at + count ≤ 8 * length mask.old }
        requires ends { at + count < 2 ^ 64 }
        ensures owned { OnOk result (AddsHeld self.old (S.disk store.old) first count at mask.old mask.new out.old out.new) }
        ensures found { KeepsFound mask.old mask.new }
        ensures same { IsSame self.old self.new (S.disk store.old) }
        ensures stays { OnOk result (S.disk store.new ≡ S.disk store.old) }
        ensures err { IfErr result (ReadFailed self.old.tables.parts.file (S.disk store.old) (S.disk store.new)) }
    {
        own_missing(&mut self.tables, store, first, count, out, mask, at)
    }

    /// Commits: a crash leaves from then on what the layer has. After a fault the file is to be written no more.
    pub fn commit<S: Store>(&mut self, store: &mut S) -> Result<(), StoreFault>
        requires ready { IsReady self.old (S.disk store.old) }
        requires numbers { self.old.log.number ≤ 2 ^ 64 - 2 ^ 32 }
        // At each moment, whatever it answers, in every image without a torn match.
        ensures moments { WhereBothTold (KeepsOver self.old) (S.disk store.old).told (S.disk store.new).told }
        ensures committed { OnOk result (WhereBothTold (HasCommitted self.old self.new) (S.disk store.old).told (S.disk store.new).told) }
        ensures ready { OnOk result (IsReady self.new (S.disk store.new)) }
        ensures empty { OnOk result (self.new.tables.pending ≡ []) }
        ensures number { self.new.log.number ≤ self.old.log.number + 1 }
        ensures header { self.new.log.header ≡ self.old.log.header }
        ensures parts { self.new.tables.parts ≡ self.old.tables.parts }
        ensures leave { self.new.leave ≡ self.old.leave }
        ensures plans { self.new.plans ≡ self.old.plans }
        // The tables say the same, and places that were freed can be taken.
        ensures says { OnOk result (WhereBothTold (TellsAllSame self.old self.new) (S.disk store.old).told (S.disk store.new).told) }
        ensures space { OnOk result (MayCommit self.old.space self.new.space) }
        ensures broken { OnErr result (ReadsOn self.old self.new 0 0 (S.disk store.old) (S.disk store.new)) }
        ensures counts { OnOk result (S.disk store.new ≡ record (S.disk store.old) { told = (S.disk store.new).told }) }
        ensures err { IfErr result (FailsToChange self.old.tables.parts.file (S.disk store.old) (S.disk store.new)) }
    {
        if !self.can_commit() {
            return self.commit_plainly(store);
        }
        self.log.commit(store, &mut self.tables.pending)?;
        self.space.committed();
        Ok(())
    }

    // The same over a store that tells nothing, where a changed page lies where the log may not write.
    fn commit_plainly<S: Store>(&mut self, store: &mut S) -> Result<(), StoreFault>
        requires there { self.old.tables.parts.file < (S.disk store.old).files }
        requires untold { (S.disk store.old).told ≡ None }
        ensures only { self.new ≡ record (self.old) { tables = self.new.tables } }
        ensures parts { self.new.tables.parts ≡ self.old.tables.parts }
        ensures written { OnOk result (self.new ≡ record (self.old) { tables = record (self.old.tables) { pending = [] } }) }
        ensures done { OnOk result (S.disk store.new ≡ S.disk store.old) }
        ensures untold { (S.disk store.new).told ≡ None }
        ensures err { IfErr result (FailsToChange self.old.tables.parts.file (S.disk store.old) (S.disk store.new)) }
    {
        write_plainly(store, self.tables.parts.file, self.tables.pending.pages())?;
        self.tables.pending.clear();
        Ok(())
    }

    // Makes the file longer by zeros.
    pub(crate) fn grow<S: Store>(&mut self, store: &mut S, len: u64) -> Result<(), LayerFault>
        requires ready { IsReady self.old (S.disk store.old) }
        requires longer { self.old.log.len ≤ len }
        ensures moments { WhereBothTold (KeepsOver self.old) (S.disk store.old).told (S.disk store.new).told }
        ensures log { OnOk result (self.new ≡ record (self.old) { log = record (self.old.log) { len = len } }) }
        ensures kept { OnErr result (self.new ≡ self.old) }
        ensures broken { OnErr result (ReadsOn self.old self.new 0 0 (S.disk store.old) (S.disk store.new)) }
        ensures counts { OnOk result (S.disk store.new ≡ record (S.disk store.old) { told = (S.disk store.new).told }) }
        ensures err { IfErr result (Fails self.old.tables.parts.file (S.disk store.old) (S.disk store.new)) }
    {
        match self.log.grow(store, len) {
            Ok(()) => Ok(()),
            Err(fault) => Err(LayerFault::Write(fault)),
        }
    }

    // Writes sectors to their places in a block, which is there.
    pub(crate) fn write<S: Store>(
        &self,
        store: &mut S,
        first: u64,
        place: u64,
        bytes: &[u8],
    ) -> Result<(), LayerFault>
        requires ready { IsReady self.now (S.disk store.old) }
        requires whole { length bytes.now ≡ self.now.tables.parts.sector * calls.sectors_in self.now bytes.now }
        requires on_disk { first + calls.sectors_in self.now bytes.now ≤ self.now.tables.parts.sectors }
        requires stand { WhereTold (S.disk store.old).told (λ trace. StandFrom self.now first (calls.sectors_in self.now bytes.now) place trace) }
        ensures moments { WhereBothTold (PutsInto self.now first (calls.sectors_in self.now bytes.now)) (S.disk store.old).told (S.disk store.new).told }
        ensures done { OnOk result (HasWritten self.now self.now first (calls.sectors_in self.now bytes.now) bytes.now (S.disk store.old) (S.disk store.new)) }
        // No table changes.
        ensures same { OnOk result (WhereBothTold (KeepsEntries self.now self.now) (S.disk store.old).told (S.disk store.new).told) }
        // A write that failed may have left any bytes of those sectors.
        ensures broken { IfErr result (IsBroken self.now self.now first (calls.sectors_in self.now bytes.now) (S.disk store.old) (S.disk store.new)) }
    {
        let _first = first;
        match self.log.write(store, place, bytes) {
            Ok(()) => Ok(()),
            Err(fault) => Err(LayerFault::Write(fault)),
        }
    }

    // Whether each changed page lies in the file at a place that the log may update: so it is where the store tells its
    // content. Where it doesn't, a table may have named any place.
    fn can_commit(&self) -> bool
        ensures { IsTrue result ↔ All (CanCommit self.now.log) self.now.tables.pending }
    {
        self.can_take(self.tables.pending.pages())
    }

    // The same of any pages.
    pub(crate) fn can_take(&self, pages: &[Page]) -> bool
        ensures { IsTrue result ↔ All (CanCommit self.now.log) pages.now }
    {
        pages.iter().all(|page| self.log.may_commit(page.at))
    }

    /// Ends the session: commits, and writes a header that names no log. After a fault the file is to be written no more, so that
    /// its log stays named.
    pub fn end<S: Store>(mut self, store: &mut S) -> Result<(), StoreFault>
        requires ready { IsReady self (S.disk store.old) }
        requires numbers { self.log.number ≤ 2 ^ 64 - 2 ^ 32 }
        ensures moments { WhereBothTold (KeepsOver self) (S.disk store.old).told (S.disk store.new).told }
        ensures ended { OnOk result (WhereBothTold (HasEnded self) (S.disk store.old).told (S.disk store.new).told) }
        ensures counts { OnOk result (S.disk store.new ≡ record (S.disk store.old) { told = (S.disk store.new).told }) }
        ensures err { IfErr result (FailsToChange self.tables.parts.file (S.disk store.old) (S.disk store.new)) }
    {
        self.commit(store)?;
        let Layer {
            tables: _,
            log,
            space: _,
            leave: _,
            zeros: _,
            plans: _,
        } = self;
        log.end(store)
    }

    /// Ends the session as `end` does, and gives the layer by which the file is read from then on. Takes no memory. After a fault
    /// the file is to be written no more, so that its log stays named.
    pub fn close<S: Store>(mut self, store: &mut S) -> Result<ReadLayer, StoreFault>
        requires ready { IsReady self (S.disk store.old) }
        requires numbers { self.log.number ≤ 2 ^ 64 - 2 ^ 32 }
        ensures moments { WhereBothTold (KeepsOver self) (S.disk store.old).told (S.disk store.new).told }
        ensures closed { IfOk result (λ l. WhereBothTold (HasClosed self l) (S.disk store.old).told (S.disk store.new).told) }
        ensures can { IfOk result (λ l. CanRead l (S.disk store.new)) }
        ensures parts { IfOk result (λ l. l.tables.parts ≡ self.tables.parts) }
        ensures counts { OnOk result (S.disk store.new ≡ record (S.disk store.old) { told = (S.disk store.new).told }) }
        ensures err { IfErr result (FailsToChange self.tables.parts.file (S.disk store.old) (S.disk store.new)) }
    {
        self.commit(store)?;
        let Layer {
            tables,
            log,
            space: _,
            leave: _,
            zeros: _,
            plans: _,
        } = self;
        log.end(store)?;
        Ok(ReadLayer { tables })
    }
}
