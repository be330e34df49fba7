//! The layers of a chain's files.

ghost use Rattle.std.specs.Prelude.{[], Bool, ◌≡◌, ◌≤◌, ◌+◌, ◌*◌, ◌/◌, ◌%◌, ◌^◌, ℕ, true, false, not, None, Ok, length, is_some, option_map, ◌<◌, IfErr, IfSome, OnOk};
ghost use Rattle.guest_model.specs.declared.call.Call.TheVariants as calls;
ghost use Rattle.layer_session.specs.declared.file.Layer.{Layer};
ghost use Rattle.layer_session.specs.Calls.{Fails};
ghost use Rattle.layer_session.specs.ReadOnly.{SomeReadFailed};
ghost use Rattle.chain_core.specs.Answering.{EndsTold, FailsByChange, LayerRoomIs, LayerTold, UnlessBroken, as_change};
ghost use Rattle.layer_session.specs.Calls.{IsBeside};
ghost use Rattle.layer_session.specs.FileLayers.{AreOthers, file_numbers};
ghost use Rattle.store_model.specs.Disk.{WhereBothTold};
ghost use Rattle.chain_core.specs.Ending.{AreAllReady, AreNumbered, EndsOnTold, IsInSession, IsOfSession, SomeChangeFailed};
ghost use Rattle.chain_core.specs.Planned.{FindsPlanned, PlansPart};
ghost use Rattle.chain_core.specs.Reading.{AddsPart, Finds, HasOnlyRead, of_read, of_session};
ghost use Rattle.read_plan.specs.Reading.{AreThere};
ghost use Rattle.sealed_layer.specs.Planned.{EndsBy, IsPlan, LieInStore};
ghost use Rattle.std.specs.List.{AllByRecursion};
ghost use Rattle.chain_core.specs.Copying.{IsSized, LayerFollows, TouchesIf, stamp_of};
ghost use Rattle.chain_core.specs.Sessions.{AreApart, AreReady, IsLow, KeepsMerge, kept_marks, leaf_number};
ghost use Rattle.vhdx_format.specs.AllocationTables.{IsSectorSize};

use layer_session::{FileLayer, Layer, LayerFault, own_files};
use merge_core::{Marks, Stamps, stripes_touched};
use meta_edit::Updates;
use read_plan::{Plan, ReaderSet};
use sealed_layer::plan_files;
use store_model::{Reader, Store, StoreFault};
use vx_base::{Geometry, Guid};

/// A merge that is under way, of the file at a place below the leaf into the one behind it.
#[derive(Drop)]
pub struct Underway {
    /// The source's place among the files below the leaf.
    pub(crate) source: usize,
    /// Which stripes are copied.
    pub(crate) marks: Marks,
    /// The pages that give the file directly above the source the target for its parent.
    pub(crate) relink: Updates,
}

/// A merge of the leaf that is under way, into the file behind it, which is to stand for it.
#[derive(Drop)]
pub struct Retiring {
    /// Which stripes are copied.
    pub(crate) marks: Marks,
    /// When each was last changed: the place of that call in the history.
    pub(crate) stamps: Stamps,
    /// The pages that take the target's own retired name away, if it has one.
    pub(crate) clear: Option<Updates>,
    /// The pages that retire the leaf in favour of the target.
    pub(crate) retire: Updates,
    /// The identifier that the target's data get once it is the leaf.
    pub(crate) third: Guid,
}

/// The layers of a chain's files, whose disk has this geometry.
#[derive(Drop)]
pub struct Layers {
    pub(crate) geometry: Geometry,
    /// The leaf's session; none where the chain is only read.
    pub(crate) leaf: Option<Layer>,
    /// The other files, the upper one first: those below the leaf's session, or all.
    pub(crate) below: Vec<FileLayer>,
    /// The merge of a file below the leaf, once one is prepared and until it is finished.
    pub(crate) merge: Option<Underway>,
    /// Or that of the leaf.
    pub(crate) retiring: Option<Retiring>,
}

// Where a call was done that has this place in the history, the stripes of its sectors were changed.
fn touch(
    retiring: &mut Option<Retiring>,
    is_done: bool,
    geometry: Geometry,
    first: u64,
    count: u64,
    place: u64,
)
    requires sector { IsSectorSize geometry.sector }
    requires on_disk { first + count ≤ geometry.sectors }
    requires each { IfSome retiring.old (IsSized geometry) }
    ensures { TouchesIf is_done geometry.sector (calls.Trim first count) place retiring.old retiring.new }
{
    let Some(retiring) = retiring else {
        return;
    };
    if !is_done || count == 0 {
        return;
    }
    let (low, high) = stripes_touched(first, count, geometry);
    retiring.marks.unmark_range(low, high);
    retiring.stamps.set_range(low, high, place);
}

impl Layers {
    /// Which stripes are copied, of the merge that is under way.
    pub(crate) fn marks(&self) -> Option<&Marks>
        ensures { option_map (λ m. m.now) result ≡ kept_marks self.now }
    {
        match (&self.merge, &self.retiring) {
            (Some(merge), _) => Some(&merge.marks),
            (None, Some(retiring)) => Some(&retiring.marks),
            (None, None) => None,
        }
    }

    /// The stamp of a stripe: 0 where the leaf isn't the source.
    pub(crate) fn stamp(&self, stripe: u32) -> u64
        requires { IfSome self.now.retiring (λ r. stripe < length r.stamps.words.items) }
        ensures { result ≡ stamp_of self.now stripe }
    {
        match &self.retiring {
            Some(retiring) => retiring.stamps.get(stripe),
            None => 0,
        }
    }

    /// Whether the leaf has a session.
    pub fn has_session(&self) -> bool
        ensures { result ≡ is_some self.now.leaf }
    {
        self.leaf.is_some()
    }

    // Adds what the leaf has of sectors to what was found of them, if it has a session.
    fn own_leaf<S: Store>(
        &mut self,
        store: &mut S,
        first: u64,
        count: u64,
        out: &mut [u8],
        mask: &mut [u8],
    ) -> Result<(), StoreFault>
        requires ready { AreReady self.old (S.disk store.old) }
        requires on_disk { first + count ≤ self.old.geometry.sectors }
        requires out { length out.old ≡ self.old.geometry.sector * count }
        requires mask { count ≤ 8 * length mask.old }
        ensures reads { HasOnlyRead self.old self.new (S.disk store.old) (S.disk store.new) }
        ensures adds { OnOk result (AddsPart of_session first count self.old (S.disk store.old) mask.old mask.new out.old out.new) }
        ensures stays { OnOk result (S.disk store.new ≡ S.disk store.old) }
        ensures below { self.new.below ≡ self.old.below }
        ensures err { IfErr result (SomeReadFailed (S.disk store.old) (S.disk store.new)) }
    {
        match &mut self.leaf {
            Some(leaf) => leaf.own(store, first, count, out, mask, 0),
            None => Ok(()),
        }
    }

    // Adds what the other files have.
    fn own_below<S: Store>(
        &mut self,
        store: &mut S,
        first: u64,
        count: u64,
        out: &mut [u8],
        mask: &mut [u8],
    ) -> Result<(), StoreFault>
        requires ready { AreReady self.old (S.disk store.old) }
        requires on_disk { first + count ≤ self.old.geometry.sectors }
        requires out { length out.old ≡ self.old.geometry.sector * count }
        requires mask { count ≤ 8 * length mask.old }
        ensures reads { HasOnlyRead self.old self.new (S.disk store.old) (S.disk store.new) }
        ensures adds { OnOk result (AddsPart of_read first count self.old (S.disk store.old) mask.old mask.new out.old out.new) }
        ensures stays { OnOk result (S.disk store.new ≡ S.disk store.old) }
        ensures err { IfErr result (SomeReadFailed (S.disk store.old) (S.disk store.new)) }
    {
        let below = self.below.as_mut_slice();
        own_files(below, store, self.geometry, first, count, out, mask, 0)
    }

    /// Finds sectors of the disk, file by file.
    pub fn find<S: Store>(
        &mut self,
        store: &mut S,
        first: u64,
        count: u64,
        out: &mut [u8],
    ) -> Result<(), StoreFault>
        requires ready { AreReady self.old (S.disk store.old) }
        requires on_disk { first + count ≤ self.old.geometry.sectors }
        requires out { length out.old ≡ self.old.geometry.sector * count }
        requires few { count ≤ 2048 }
        ensures reads { HasOnlyRead self.old self.new (S.disk store.old) (S.disk store.new) }
        ensures finds { OnOk result (Finds first count out.new self.old (S.disk store.old)) }
        ensures stays { OnOk result (S.disk store.new ≡ S.disk store.old) }
        ensures err { IfErr result (SomeReadFailed (S.disk store.old) (S.disk store.new)) }
    {
        let mut mask = [0; 256];
        self.own_leaf(store, first, count, out, &mut mask)?;
        self.own_below(store, first, count, out, &mut mask)
    }

    // Of the other files plans what those have that are only read and have a reader, and reads what the rest have.
    fn plan_below<S: Store, R: Reader>(
        &mut self,
        store: &mut S,
        readers: &ReaderSet<R>,
        first: u64,
        count: u64,
        plan: &mut Plan,
        out: &mut [u8],
        mask: &mut [u8],
    ) -> Result<(), StoreFault>
        requires ready { AreReady self.old (S.disk store.old) }
        requires on_disk { first + count ≤ self.old.geometry.sectors }
        requires out { length out.old ≡ self.old.geometry.sector * count }
        requires few { count ≤ 2048 }
        requires mask { count ≤ 8 * length mask.old }
        requires plan { IsPlan count mask.old plan.old }
        requires lie { LieInStore self.old.geometry.sector (S.disk store.old) plan.old }
        ensures reads { HasOnlyRead self.old self.new (S.disk store.old) (S.disk store.new) }
        ensures plans { OnOk result (PlansPart of_read first count self.old (S.disk store.old) mask.old mask.new plan.old plan.new out.old out.new) }
        ensures plan { IsPlan count mask.new plan.new }
        ensures lie { LieInStore self.old.geometry.sector (S.disk store.old) plan.new }
        ensures there { AreThere readers.now plan.old → AreThere readers.now plan.new }
        ensures stays { OnOk result (S.disk store.new ≡ S.disk store.old) }
        ensures err { IfErr result (SomeReadFailed (S.disk store.old) (S.disk store.new)) }
    {
        let below = self.below.as_mut_slice();
        let geometry = self.geometry;
        plan_files(
            below, store, readers, geometry, first, count, plan, out, mask,
        )
    }

    /// Finds sectors of the disk, file by file: what a file has that is only read is planned where there is a reader of it, and what any
    /// other has is read.
    pub fn plan<S: Store, R: Reader>(
        &mut self,
        store: &mut S,
        readers: &ReaderSet<R>,
        first: u64,
        count: u64,
        plan: &mut Plan,
        out: &mut [u8],
    ) -> Result<(), StoreFault>
        requires ready { AreReady self.old (S.disk store.old) }
        requires on_disk { first + count ≤ self.old.geometry.sectors }
        requires out { length out.old ≡ self.old.geometry.sector * count }
        requires few { count ≤ 2048 }
        requires empty { plan.old ≡ [] }
        ensures reads { HasOnlyRead self.old self.new (S.disk store.old) (S.disk store.new) }
        ensures finds { OnOk result (FindsPlanned first count plan.new out.new self.old (S.disk store.old)) }
        ensures fit { AllByRecursion (EndsBy count) plan.new }
        ensures lie { LieInStore self.old.geometry.sector (S.disk store.old) plan.new }
        ensures there { AreThere readers.now plan.new }
        ensures stays { OnOk result (S.disk store.new ≡ S.disk store.old) }
        ensures err { IfErr result (SomeReadFailed (S.disk store.old) (S.disk store.new)) }
    {
        let mut mask = [0; 256];
        self.own_leaf(store, first, count, out, &mut mask)?;
        self.plan_below(store, readers, first, count, plan, out, &mut mask)
    }

    /// Writes sectors into the leaf, by the call that has this place in the history.
    pub fn put<S: Store>(
        &mut self,
        store: &mut S,
        first: u64,
        bytes: &[u8],
        place: u64,
    ) -> Result<(), LayerFault>
        requires session { is_some self.old.leaf ≡ true }
        requires ready { AreReady self.old (S.disk store.old) }
        requires low { IsLow (2 ^ 63 + 4) self.old }
        requires whole { length bytes.now % self.old.geometry.sector ≡ 0 }
        requires on_disk { first + length bytes.now / self.old.geometry.sector ≤ self.old.geometry.sectors }
        requires few { length bytes.now / self.old.geometry.sector ≤ 2048 }
        ensures told { LayerTold place (calls.Write first bytes.now) self.old self.new (S.disk store.old) (S.disk store.new) result }
        ensures ready { UnlessBroken result (AreReady self.new (S.disk store.new)) }
        ensures low { (most : ℕ) → IsLow most self.old → IsLow (most + 1) self.new }
        ensures session { is_some self.new.leaf ≡ true }
        ensures geometry { self.new.geometry ≡ self.old.geometry }
        ensures leaf { leaf_number self.new ≡ leaf_number self.old }
        ensures merge { LayerFollows place (calls.Write first bytes.now) self.old self.new result }
        ensures counts { OnOk result (S.disk store.new ≡ record (S.disk store.old) { told = (S.disk store.new).told }) }
        ensures err { IfErr result (Fails (leaf_number self.old) (S.disk store.old) (S.disk store.new)) }
        ensures room { LayerRoomIs (λ leaf. false) first (length bytes.now / self.old.geometry.sector) self.old (S.disk store.old) result }
    {
        let Some(leaf) = &mut self.leaf else {
            return Ok(());
        };
        let done = leaf.put(store, first, bytes);
        let count = bytes.len() as u64 / u64::from(self.geometry.sector);
        let geometry = self.geometry;
        touch(
            &mut self.retiring,
            done.is_ok(),
            geometry,
            first,
            count,
            place,
        );
        done
    }

    /// Makes sectors zeros in the leaf, by the call that has this place in the history.
    pub fn zero<S: Store>(
        &mut self,
        store: &mut S,
        first: u64,
        count: u64,
        place: u64,
    ) -> Result<(), LayerFault>
        requires session { is_some self.old.leaf ≡ true }
        requires ready { AreReady self.old (S.disk store.old) }
        requires low { IsLow (2 ^ 63 + 4) self.old }
        requires on_disk { first + count ≤ self.old.geometry.sectors }
        requires few { count ≤ 524288 }
        ensures told { LayerTold place (calls.Trim first count) self.old self.new (S.disk store.old) (S.disk store.new) result }
        ensures ready { UnlessBroken result (AreReady self.new (S.disk store.new)) }
        ensures low { (most : ℕ) → IsLow most self.old → IsLow (most + 1) self.new }
        ensures session { is_some self.new.leaf ≡ true }
        ensures geometry { self.new.geometry ≡ self.old.geometry }
        ensures leaf { leaf_number self.new ≡ leaf_number self.old }
        ensures merge { LayerFollows place (calls.Trim first count) self.old self.new result }
        ensures counts { OnOk result (S.disk store.new ≡ record (S.disk store.old) { told = (S.disk store.new).told }) }
        ensures err { IfErr result (Fails (leaf_number self.old) (S.disk store.old) (S.disk store.new)) }
        ensures room { LayerRoomIs (λ (leaf : Layer). not leaf.leave) first count self.old (S.disk store.old) result }
    {
        let Some(leaf) = &mut self.leaf else {
            return Ok(());
        };
        let done = leaf.zero(store, first, count);
        let geometry = self.geometry;
        touch(
            &mut self.retiring,
            done.is_ok(),
            geometry,
            first,
            count,
            place,
        );
        done
    }

    /// Commits the leaf.
    pub fn commit<S: Store>(&mut self, store: &mut S) -> Result<(), LayerFault>
        requires session { is_some self.old.leaf ≡ true }
        requires ready { AreReady self.old (S.disk store.old) }
        requires low { IsLow (2 ^ 63 + 4) self.old }
        ensures told { (place : ℕ) → LayerTold place calls.Flush self.old self.new (S.disk store.old) (S.disk store.new) result }
        ensures ready { UnlessBroken result (AreReady self.new (S.disk store.new)) }
        ensures low { UnlessBroken result ((most : ℕ) → IsLow most self.old → IsLow (most + 1) self.new) }
        ensures session { is_some self.new.leaf ≡ true }
        ensures geometry { self.new.geometry ≡ self.old.geometry }
        ensures leaf { leaf_number self.new ≡ leaf_number self.old }
        ensures merge { KeepsMerge self.old self.new }
        ensures counts { OnOk result (S.disk store.new ≡ record (S.disk store.old) { told = (S.disk store.new).told }) }
        ensures err { IfErr result (Fails (leaf_number self.old) (S.disk store.old) (S.disk store.new)) }
        ensures change { FailsByChange result }
    {
        match &mut self.leaf {
            Some(leaf) => changed(leaf.commit(store)),
            None => Ok(()),
        }
    }

    /// Ends the session of every file that has one, from the base upward, the leaf last; nothing where the leaf has none.
    pub fn end<S: Store>(self, store: &mut S) -> Result<(), StoreFault>
        requires ready { AreReady self (S.disk store.old) }
        requires low { IsLow (2 ^ 63 + 4) self }
        ensures told { EndsTold self (S.disk store.old) (S.disk store.new) result }
        ensures read { self.leaf ≡ None → (result ≡ Ok tt) × (store.new ≡ store.old) }
        ensures counts { OnOk result (S.disk store.new ≡ record (S.disk store.old) { told = (S.disk store.new).told }) }
        ensures err { IfErr result (SomeChangeFailed (IsOfSession self) (S.disk store.old) (S.disk store.new)) }
    {
        let (leaf, below) = self.into_files();
        match leaf {
            Some(leaf) => {
                end_files(below, store)?;
                leaf.end(store)
            }
            None => Ok(()),
        }
    }

    // The leaf's session, if it has one, and the other files.
    fn into_files(self) -> (Option<Layer>, Vec<FileLayer>)
        ensures leaf { result.0 ≡ self.leaf }
        ensures below { result.1 ≡ self.below }
    {
        (self.leaf, self.below)
    }
}

// Ends the sessions of those files that have one, the last file first.
fn end_files<S: Store>(mut below: Vec<FileLayer>, store: &mut S) -> Result<(), StoreFault>
    requires ready { AreAllReady (S.disk store.old) below.items }
    requires low { AreNumbered below.items }
    requires apart { AreApart (file_numbers below.items) }
    ensures told { EndsOnTold below.items (S.disk store.old) (S.disk store.new) result }
    ensures beside { (number : ℕ) → AreOthers number below.items → WhereBothTold (IsBeside number) (S.disk store.old).told (S.disk store.new).told }
    ensures counts { OnOk result (S.disk store.new ≡ record (S.disk store.old) { told = (S.disk store.new).told }) }
    ensures err { IfErr result (SomeChangeFailed (IsInSession below.items) (S.disk store.old) (S.disk store.new)) }
{
    let Some(file) = below.pop() else {
        return Ok(());
    };
    file.end(store)?;
    end_files(below, store)
}

// The answer of a call whose one fault is a failed change.
pub(crate) fn changed(done: Result<(), StoreFault>) -> Result<(), LayerFault>
    ensures { result ≡ as_change done }
{
    match done {
        Ok(()) => Ok(()),
        Err(fault) => Err(LayerFault::Write(fault)),
    }
}
