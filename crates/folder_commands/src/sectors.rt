//! Sectors of the disk of a chain.

ghost use Rattle.std.specs.Prelude.{◌≡◌, ◌<◌, ◌≤◌, ◌+◌, ◌*◌, ◌^◌, All, drop, length, take, IfErr, IfOk, OnOk};
ghost use Rattle.chain_model.specs.Images.{members_of};
ghost use Rattle.chain_model.specs.Members.{NoneTwice, disk_of};
ghost use Rattle.guest_model.specs.Calls.{bytes_of};
ghost use Rattle.guest_model.specs.History.{IsSized};
ghost use Rattle.link_rules.specs.Chains.{most_files, names_of};
ghost use Rattle.link_rules.specs.Effects.{IsServed, LeavesBy};
ghost use Rattle.link_rules.specs.Folders.{AllIdle, contents};
ghost use Rattle.link_rules.specs.Lines.{IsLine};
ghost use Rattle.link_rules.specs.Touches.{IsOnWay, TouchesSafely};
ghost use Rattle.store_model.specs.Disk.{WhereTold};
ghost use Rattle.vhdx_format.specs.Fields.{sector_size};
ghost use Rattle.command_base.specs.Causes.{AnswersBy, LeavesStore, meaning_of_dump};
ghost use Rattle.printing.specs.Answers.{IsGiven};
ghost use Rattle.command_base.specs.Commands.{AreLayersFrom, AreOpened, AreOpenedFrom, HasGeometry, HasRead, LeavesFollowed, LeavesRead, OnlyAttaches, placed_from};
ghost use Rattle.command_base.specs.Dump.{Finds};

use command_base::{ChainRefusal, DumpRefusal, attach, check_lengths, leaf_of};
use guest_model::check_range;
use layer_session::{ReadLayer, own_through};
use link_rules::{LinkedFile, order};
use std::alloc::Global;
use store_model::{Host, Store};
use vx_base::{Bytes, Geometry, Name, NoRoom, zeroed};

/// Bytes of a sector.
const SECTOR: u64 = 512;

/// So many sectors are read at once, at most.
const READ_LIMIT: u64 = 2_048;

/// Bytes of a mask with a bit for each of these.
const MASK_LEN: usize = 256;

/// So many pages of a file's tables are kept, each of 4 KB: those of a range that is read at once are fewer.
const TABLE_PAGES: u32 = 8;

// The layers of files, which a store has in their order.
fn layers_of(alloc: Global, files: &[LinkedFile]) -> Result<Vec<ReadLayer>, NoRoom>
    requires few { length files.now ≤ most_files }
    requires served { All IsServed files.now }
    ensures { IfOk result (λ layers. AreLayersFrom 0 files.now layers.items) }
{
    let mut layers = Vec::new(alloc);
    for file in files {
        let number = layers.len() as u32;
        layers.push(ReadLayer::new(alloc, number, &file.parts, TABLE_PAGES)?)?;
    }
    Ok(layers)
}

/// The bytes of this many sectors, at most 2,048, as the store's files have them, which are a chain with these numbers.
pub fn sectors_of<S: Store>(
    alloc: Global,
    store: &mut S,
    files: &[LinkedFile],
    geometry: Geometry,
    first: u64,
    count: u64,
) -> Result<Bytes, ChainRefusal>
    requires all { (S.disk store.old).files ≡ length files.now }
    requires few { length files.now ≤ most_files }
    requires served { All IsServed files.now }
    requires line { IsLine files.now }
    requires geometry { HasGeometry files.now geometry }
    requires on_disk { first + count ≤ geometry.sectors }
    requires most { count ≤ 2048 }
    requires opened { WhereTold (S.disk store.old).told (AreOpenedFrom 0 files.now) }
    ensures bytes { IfOk result (λ bytes. WhereTold (S.disk store.old).told
        (λ trace. bytes ≡ bytes_of (take count (drop first (disk_of (members_of (placed_from 0 files.now trace))))))) }
    ensures len { IfOk result (λ bytes. length bytes ≡ sector_size * count) }
    ensures sized { IfOk result (λ bytes. WhereTold (S.disk store.old).told (λ trace. IsSized sector_size (take count (drop first (disk_of (members_of (placed_from 0 files.now trace))))))) }
    ensures store { LeavesStore (S.disk store.old) (S.disk store.new) result }
{
    check_lengths(store, files.len() as u32)?;
    let mut layers = layers_of(alloc, files)?;
    let mut bytes = zeroed(alloc, (SECTOR * count) as usize)?;
    let mut mask = [0; MASK_LEN];
    own_through(
        layers.as_mut_slice(),
        store,
        geometry,
        first,
        count,
        bytes.as_mut_slice(),
        &mut mask,
        0,
    )?;
    Ok(Bytes::from_vec(bytes))
}

// Reads sectors of the disk of a chain, whose files were opened.
fn read<H: Host>(
    alloc: Global,
    host: &mut H,
    files: &[LinkedFile],
    geometry: Geometry,
    first: u64,
    count: u64,
) -> Result<Bytes, ChainRefusal>
    requires idle { WhereTold (H.hosted host.old).folder AllIdle }
    requires few { length files.now ≤ most_files }
    requires once { NoneTwice (names_of files.now) }
    requires served { All IsServed files.now }
    requires line { IsLine files.now }
    requires geometry { HasGeometry files.now geometry }
    requires on_disk { first + count ≤ geometry.sectors }
    requires most { count ≤ 2048 }
    requires opened { WhereTold (H.hosted host.old).folder (λ folder. AreOpened (contents folder) files.now) }
    ensures bytes { IfOk result (λ bytes. WhereTold (H.hosted host.old).folder (λ folder. HasRead (contents folder) files.now first count bytes)) }
    ensures len { IfOk result (λ bytes. length bytes ≡ sector_size * count) }
    ensures moments { OnlyAttaches (names_of files.now) (H.hosted host.old) (H.hosted host.new) }
    ensures leaves { LeavesRead (H.hosted host.old) (H.hosted host.new) result }
{
    let mut store = attach(alloc, host, files)?;
    let read = sectors_of(alloc, &mut store, files, geometry, first, count);
    host.give_back(store);
    read
}

/// Reads sectors of the disk of the chain to which the leaf's name leads.
pub fn find<H: Host>(
    alloc: Global,
    host: &mut H,
    leaf: &Name,
    first: u64,
    count: u64,
) -> Result<Bytes, DumpRefusal>
    requires idle { WhereTold (H.hosted host.old).folder AllIdle }
    ensures answer { WhereTold (H.hosted host.old).folder (λ folder. AnswersBy meaning_of_dump (Finds folder leaf.now first count) result) }
    ensures given { IfOk result (IsGiven first count) }
    ensures moments { TouchesSafely (λ folder. IsOnWay (contents folder) leaf.now) (H.hosted host.old) (H.hosted host.new) }
    ensures leaves { LeavesFollowed meaning_of_dump leaf.now (H.hosted host.old) (H.hosted host.new) result }
{
    let linked = order(alloc, host, leaf)?;
    let files = linked.files.as_slice();
    let geometry = leaf_of(files).parts.geometry;
    check_range(first, count, READ_LIMIT, geometry.sectors)?;
    Ok(read(alloc, host, files, geometry, first, count)?)
}
