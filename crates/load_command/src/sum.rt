//! The sum of the disk of a chain.

ghost use Rattle.std.specs.Prelude.{◌≡◌, ◌≤◌, All, IfOk, length, take};
ghost use Rattle.chain_model.specs.Images.{members_of};
ghost use Rattle.chain_model.specs.Members.{NoneTwice, disk_of};
ghost use Rattle.command_base.specs.Causes.{AnswersBy, LeavesStore, meaning_of_chain};
ghost use Rattle.command_base.specs.Commands.{AreOpened, AreOpenedFrom, HasGeometry, LeavesFollowed, LeavesRead, OnlyAttaches, placed_from};
ghost use Rattle.link_rules.specs.Chains.{most_files, names_of};
ghost use Rattle.link_rules.specs.Effects.{IsServed};
ghost use Rattle.link_rules.specs.Folders.{AllIdle, contents};
ghost use Rattle.link_rules.specs.Lines.{IsLine};
ghost use Rattle.link_rules.specs.Touches.{IsOnWay, TouchesSafely};
ghost use Rattle.load_calls.specs.Printed.{sectors_sum};
ghost use Rattle.load_command.specs.Sums.{HasSummed, SumsUp};
ghost use Rattle.store_model.specs.Disk.{WhereTold};

use crate::names::SECTORS;
use command_base::{ChainRefusal, attach, leaf_of};
use folder_commands::sectors_of;
use link_rules::{LinkedFile, order};
use load_calls::{page_sum, pages_add_up};
use std::alloc::Global;
use store_model::{Host, Store};
use vx_base::{Geometry, Name};

/// So many sectors are read at once, at most.
const PAGE: u64 = 2_048;

// The sum over the first sectors that the store's files have, which are a chain with these numbers.
fn sum_store<S: Store>(
    alloc: Global,
    store: &mut S,
    files: &[LinkedFile],
    geometry: Geometry,
    sectors: u64,
) -> Result<u64, ChainRefusal>
    requires all { (S.disk store.old).files ≡ length files.now }
    requires few { length files.now ≤ most_files }
    requires served { All IsServed files.now }
    requires line { IsLine files.now }
    requires geometry { HasGeometry files.now geometry }
    requires on_disk { sectors ≤ geometry.sectors }
    requires most { sectors ≤ 131072 }
    requires opened { WhereTold (S.disk store.old).told (AreOpenedFrom 0 files.now) }
    ensures sum { IfOk result (λ sum. WhereTold (S.disk store.old).told (λ trace. sum ≡ sectors_sum 0 (take sectors (disk_of (members_of (placed_from 0 files.now trace)))))) }
    ensures store { LeavesStore (S.disk store.old) (S.disk store.new) result }
{
    pages_add_up();
    let mut sum = 0;
    let mut first = 0;
    while first < sectors {
        let count = (sectors - first).min(PAGE);
        let bytes = sectors_of(alloc, store, files, geometry, first, count)?;
        sum += page_sum(first, bytes.as_slice());
        first += count;
    }
    Ok(sum)
}

// The same over the disk of a chain whose files were opened.
fn sum_files<H: Host>(
    alloc: Global,
    host: &mut H,
    files: &[LinkedFile],
    geometry: Geometry,
) -> Result<u64, ChainRefusal>
    requires idle { WhereTold (H.hosted host.old).folder AllIdle }
    requires few { length files.now ≤ most_files }
    requires once { NoneTwice (names_of files.now) }
    requires served { All IsServed files.now }
    requires line { IsLine files.now }
    requires geometry { HasGeometry files.now geometry }
    requires opened { WhereTold (H.hosted host.old).folder (λ folder. AreOpened (contents folder) files.now) }
    ensures sum { IfOk result (λ sum. WhereTold (H.hosted host.old).folder (λ folder. HasSummed (contents folder) files.now sum)) }
    ensures moments { OnlyAttaches (names_of files.now) (H.hosted host.old) (H.hosted host.new) }
    ensures leaves { LeavesRead (H.hosted host.old) (H.hosted host.new) result }
{
    let mut store = attach(alloc, host, files)?;
    let sum = sum_store(
        alloc,
        &mut store,
        files,
        geometry,
        geometry.sectors.min(SECTORS),
    );
    host.give_back(store);
    sum
}

/// The sum over the first 131,072 sectors of the disk of the chain to which the leaf's name leads: the first byte of each, times its number from 1
/// on.
pub fn sum_of<H: Host>(alloc: Global, host: &mut H, leaf: &Name) -> Result<u64, ChainRefusal>
    requires idle { WhereTold (H.hosted host.old).folder AllIdle }
    ensures answer { WhereTold (H.hosted host.old).folder (λ folder. AnswersBy meaning_of_chain (SumsUp folder leaf.now) result) }
    ensures moments { TouchesSafely (λ folder. IsOnWay (contents folder) leaf.now) (H.hosted host.old) (H.hosted host.new) }
    ensures leaves { LeavesFollowed meaning_of_chain leaf.now (H.hosted host.old) (H.hosted host.new) result }
{
    let linked = order(alloc, host, leaf)?;
    let files = linked.files.as_slice();
    let geometry = leaf_of(files).parts.geometry;
    sum_files(alloc, host, files, geometry)
}
