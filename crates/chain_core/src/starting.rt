//! How the session of a chain starts.

ghost use Rattle.std.specs.Prelude.{◌≡◌, ◌≤◌, ◌+◌, ◌∷◌, None, Some, true, length, All, is_some, IfErr, IfOk, IfSome, OnOk};
ghost use Rattle.store_model.specs.Disk.{WhereTold};
ghost use Rattle.link_rules.specs.Effects.{IsServed};
ghost use Rattle.layer_session.specs.Begins.{CanServe};
ghost use Rattle.chain_core.specs.Sessions.{AreReady, HasNoMerge, IsLow, leaf_number};
ghost use Rattle.merge_plan.specs.Attached.{CanStart};
ghost use Rattle.chain_core.specs.Starting.{AreReadOf, BeginsHigh, BeginsLow, BeginsNot, EachOpensAlike, HasBegun, HasStarted, IsOfDisk, JudgesIds, LeavesOthersFrom, RefusesGuests, RefusesSession, RefusesStart, StartsWith, session_ids, under};

use crate::layers::Layers;
use layer_session::{FileLayer, Layer, ReadLayer};
use link_rules::LinkedFile;
use log_write::SessionIds;
use merge_plan::{NewIds, all_shown};
use shown_ids::CollectFault;
use std::alloc::Global;
use store_model::{Ids, SealFault, Store, StoreFault};
use vx_base::{Guid, NoRoom};

/// The greatest number of a header from which a session's own numbers have room.
pub(crate) const MOST_NUMBER: u64 = u64::MAX - (1 << 32) + 1;

/// How many pages of the leaf's tables are kept in memory.
pub(crate) const LEAF_PAGES: u32 = 256;

/// How many of each other file's.
pub(crate) const OTHER_PAGES: u32 = 64;

/// What a session is for.
#[derive(Clone, Copy)]
pub enum Mode {
    /// Guests read and write.
    Guests,
    /// The chain is only read, and no file of it changed.
    ReadOnly,
}

/// Why no session started.
#[derive(Clone, Copy)]
pub enum StartRefusal {
    /// 36: the number of the leaf's header leaves no room for those of a session. Nothing was drawn or changed.
    Spent { number: u64 },
    /// 44: a drawn identifier is zero, was drawn before in this call, or is shown by one of the files. Nothing was changed.
    IdUnfit { id: Guid },
    /// A read of a file failed, or a change of the leaf. The files open to the same disk.
    Store(StoreFault),
    /// Memory ran out. Nothing was changed.
    NoRoom,
}

impl From<NoRoom> for StartRefusal {
    ghost use Rattle.std.specs.Prelude.{◌≡◌};
    ghost use Rattle.chain_core.specs.declared.starting.StartRefusal.TheVariants as variants;

    ghost from_gives = { λ _ e. e ≡ variants.NoRoom };

    fn from(_: NoRoom) -> Self {
        StartRefusal::NoRoom
    }
}

impl From<CollectFault> for StartRefusal {
    ghost use Rattle.std.specs.Prelude.{◌≡◌};
    ghost use Rattle.chain_core.specs.Converting.{of_collect};

    ghost from_gives = { λ fault e. e ≡ of_collect fault };

    fn from(fault: CollectFault) -> Self {
        match fault {
            CollectFault::Store(fault) => StartRefusal::Store(fault),
            CollectFault::NoRoom => StartRefusal::NoRoom,
        }
    }
}

impl From<SealFault> for StartRefusal {
    ghost use Rattle.std.specs.Prelude.{◌≡◌};
    ghost use Rattle.chain_core.specs.Converting.{of_seal};

    ghost from_gives = { λ fault e. e ≡ of_seal fault };

    fn from(fault: SealFault) -> Self {
        match fault {
            SealFault::Store(fault) => StartRefusal::Store(fault),
            SealFault::NoRoom => StartRefusal::NoRoom,
        }
    }
}

// New identifiers as those of the leaf's session.
fn of_session(ids: &NewIds) -> SessionIds
    ensures { result ≡ session_ids ids.now }
{
    SessionIds {
        file_write: ids.file_write,
        data_write: Some(ids.data_write),
        log: ids.log,
    }
}

// Draws new identifiers for the leaf of these files, and refuses them where one is unfit.
fn choose_ids<S: Store, I: Ids>(
    alloc: Global,
    store: &mut S,
    files: &[LinkedFile],
    ids: &mut I,
) -> Result<NewIds, StartRefusal>
    requires { CanStart files.now (S.disk store.old) }
    ensures fit { IfOk result (JudgesIds files.now (S.disk store.old) (I.drawn ids.old) (I.drawn ids.new) None) }
    ensures stays { OnOk result (S.disk store.new ≡ S.disk store.old) }
    ensures told { (S.disk store.new).told ≡ (S.disk store.old).told }
    ensures err { IfErr result (RefusesGuests files.now (S.disk store.old) (S.disk store.new) (I.drawn ids.old) (I.drawn ids.new)) }
{
    let drawn = NewIds::draw(ids);
    let known = all_shown(alloc, store, files)?;
    match drawn.first_unfit(known.as_slice()) {
        Some(id) => Err(StartRefusal::IdUnfit { id }),
        None => Ok(drawn),
    }
}

// Layers of files that are only read, of which the first has this number in the store.
pub(crate) fn layers_of(
    alloc: Global,
    first: u32,
    files: &[LinkedFile],
) -> Result<Vec<FileLayer>, NoRoom>
    requires few { first + length files.now ≤ 64 }
    requires served { All IsServed files.now }
    ensures { IfOk result (λ layers. AreReadOf first files.now layers.items) }
{
    let mut layers = Vec::new(alloc);
    for (place, file) in files.iter().enumerate() {
        let number = first + place as u32;
        let layer = ReadLayer::new(alloc, number, &file.parts, OTHER_PAGES)?;
        layers.push(FileLayer::Read(layer))?;
    }
    Ok(layers)
}

// The number of the leaf's header where it leaves no room for those of a session.
fn high_number(files: &[LinkedFile]) -> Option<u64>
    ensures none { result ≡ None → BeginsLow files.now }
    ensures some { IfSome result (BeginsHigh files.now) }
{
    let number = files.first()?.parts.header.number;
    if number <= MOST_NUMBER {
        return None;
    }
    Some(number)
}

impl Layers {
    // The layers of a chain whose leaf's session begins under these identifiers.
    fn begin<S: Store>(
        alloc: Global,
        store: &mut S,
        leaf: &LinkedFile,
        others: &[LinkedFile],
        ids: &NewIds,
    ) -> Result<Layers, StartRefusal>
        requires files { CanStart (leaf.now ∷ others.now) (S.disk store.old) }
        requires low { BeginsLow (leaf.now ∷ others.now) }
        requires fresh { WhereTold (S.disk store.old).told (CanServe leaf.now.parts ids.now.log 0) }
        ensures moments { EachOpensAlike (leaf.now ∷ others.now) (S.disk store.old).told (S.disk store.new).told }
        ensures still { LeavesOthersFrom (S.disk store.old).told (S.disk store.new).told }
        ensures serving { IfOk result (λ layers. StartsWith (under ids.now) (leaf.now ∷ others.now) layers (S.disk store.old).told (S.disk store.new).told) }
        ensures ready { IfOk result (λ layers. AreReady layers (S.disk store.new)) }
        ensures low { IfOk result (IsLow 1) }
        ensures session { IfOk result (λ layers. is_some layers.leaf ≡ true) }
        ensures leaf { IfOk result (λ layers. leaf_number layers ≡ 0) }
        ensures geometry { IfOk result (λ layers. layers.geometry ≡ leaf.now.parts.geometry) }
        ensures counts { OnOk result (S.disk store.new ≡ record (S.disk store.old) { told = (S.disk store.new).told }) }
        ensures err { IfErr result (BeginsNot (S.disk store.old) (S.disk store.new)) }
    {
        let below = layers_of(alloc, 1, others)?;
        let session = Layer::begin(alloc, store, 0, &leaf.parts, of_session(ids), LEAF_PAGES)?;
        Ok(Layers {
            geometry: leaf.parts.geometry,
            leaf: Some(session),
            below,
            merge: None,
            retiring: None,
        })
    }

    // The layers of a chain whose leaf's session begins under new identifiers.
    fn start_session<S: Store, I: Ids>(
        alloc: Global,
        store: &mut S,
        files: &[LinkedFile],
        ids: &mut I,
    ) -> Result<Layers, StartRefusal>
        requires files { CanStart files.now (S.disk store.old) }
        requires low { BeginsLow files.now }
        ensures moments { EachOpensAlike files.now (S.disk store.old).told (S.disk store.new).told }
        ensures still { LeavesOthersFrom (S.disk store.old).told (S.disk store.new).told }
        ensures begun { IfOk result (λ layers. HasBegun files.now layers (S.disk store.old) (S.disk store.new) (I.drawn ids.old) (I.drawn ids.new)) }
        ensures ready { IfOk result (λ layers. AreReady layers (S.disk store.new)) }
        ensures low { IfOk result (IsLow 1) }
        ensures geometry { IfOk result (λ layers. IsOfDisk files.now layers.geometry) }
        ensures err { IfErr result (RefusesGuests files.now (S.disk store.old) (S.disk store.new) (I.drawn ids.old) (I.drawn ids.new)) }
    {
        let new = choose_ids(alloc, store, files, ids)?;
        match files {
            [leaf, others @ ..] => Layers::begin(alloc, store, leaf, others, &new),
            [] => Err(StartRefusal::NoRoom),
        }
    }

    // The layers of a chain that is only read.
    fn open(alloc: Global, files: &[LinkedFile]) -> Result<Layers, NoRoom>
        requires few { length files.now ≤ 64 }
        requires served { All IsServed files.now }
        ensures leaf { IfOk result (λ layers. layers.leaf ≡ None) }
        ensures merge { IfOk result (λ layers. HasNoMerge layers) }
        ensures geometry { IfOk result (λ layers. IsOfDisk files.now layers.geometry) }
        ensures below { IfOk result (λ layers. AreReadOf 0 files.now layers.below.items) }
    {
        let Some(leaf) = files.first() else {
            return Err(NoRoom);
        };
        let below = layers_of(alloc, 0, files)?;
        Ok(Layers {
            geometry: leaf.parts.geometry,
            leaf: None,
            below,
            merge: None,
            retiring: None,
        })
    }

    // The same, unless the number of the leaf's header leaves no room for a session's.
    fn start_guests<S: Store, I: Ids>(
        alloc: Global,
        store: &mut S,
        files: &[LinkedFile],
        ids: &mut I,
    ) -> Result<Layers, StartRefusal>
        requires files { CanStart files.now (S.disk store.old) }
        ensures moments { EachOpensAlike files.now (S.disk store.old).told (S.disk store.new).told }
        ensures still { LeavesOthersFrom (S.disk store.old).told (S.disk store.new).told }
        ensures begun { IfOk result (λ layers. HasStarted Mode.Guests files.now layers (S.disk store.old) (S.disk store.new) (I.drawn ids.old)
            (I.drawn ids.new)) }
        ensures ready { IfOk result (λ layers. AreReady layers (S.disk store.new)) }
        ensures low { IfOk result (IsLow 1) }
        ensures geometry { IfOk result (λ layers. IsOfDisk files.now layers.geometry) }
        ensures err { IfErr result (RefusesSession files.now (S.disk store.old) (S.disk store.new) (I.drawn ids.old) (I.drawn ids.new)) }
    {
        if let Some(number) = high_number(files) {
            return Err(StartRefusal::Spent { number });
        }
        Layers::start_session(alloc, store, files, ids)
    }

    /// The layers of a chain of these files of the store, which starts.
    pub fn start<S: Store, I: Ids>(
        alloc: Global,
        store: &mut S,
        files: &[LinkedFile],
        mode: Mode,
        ids: &mut I,
    ) -> Result<Layers, StartRefusal>
        requires files { CanStart files.now (S.disk store.old) }
        ensures moments { EachOpensAlike files.now (S.disk store.old).told (S.disk store.new).told }
        ensures still { LeavesOthersFrom (S.disk store.old).told (S.disk store.new).told }
        ensures started { IfOk result (λ layers. HasStarted mode files.now layers (S.disk store.old) (S.disk store.new) (I.drawn ids.old) (I.drawn ids.new)) }
        ensures ready { IfOk result (λ layers. AreReady layers (S.disk store.new)) }
        ensures low { IfOk result (IsLow 1) }
        ensures geometry { IfOk result (λ layers. IsOfDisk files.now layers.geometry) }
        ensures err { IfErr result (RefusesStart mode files.now (S.disk store.old) (S.disk store.new) (I.drawn ids.old) (I.drawn ids.new)) }
    {
        match mode {
            Mode::Guests => Layers::start_guests(alloc, store, files, ids),
            Mode::ReadOnly => Ok(Layers::open(alloc, files)?),
        }
    }
}
