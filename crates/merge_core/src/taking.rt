//! Pieces are taken.

ghost use Rattle.std.specs.Prelude.{◌≡◌, ◌+◌, ◌*◌, ◌<◌, ◌≤◌, ◌^◌, ℕ, true, false, IfOk, IfErr, OnOk, OnErr, length};
ghost use Rattle.store_model.specs.Disk.{ReadFailed, WhereTold};
ghost use Rattle.table_pages.specs.declared.tables.TableParts.{TableParts};
ghost use Rattle.chain_model.specs.Images.{Placed};
ghost use Rattle.chain_model.specs.Layers as chain;
ghost use Rattle.chain_model.specs.Stripes as stripes;
ghost use Rattle.layer_session.specs.FileLayers.{FileCanBeRead, HasFile, Holds, IsReadableFile, IsSameFile, number_of, table_parts};
ghost use Rattle.layer_session.specs.Calls.{IsSame, own_file};
ghost use Rattle.layer_session.specs.Keeping.{IsReadable, Serves};
ghost use Rattle.layer_session.specs.declared.file_layer.FileLayer.TheVariants as kind;
ghost use Rattle.merge_core.specs.Pieces.{FitsIn, IsTaken, Tells, piece_of};
ghost use Rattle.vhdx_format.specs.SectorBitmaps.{HasRunSet};

use crate::piece::Piece;
use crate::stripes::stripe_range;
use layer_session::{FileLayer, Layer};
use sector_bits::set_range;
use std::alloc::Global;
use store_model::{Store, StoreFault};
use vx_base::{Geometry, NoRoom, zeroed};

/// The bytes of a piece.
const LONG: usize = 1_048_576;

/// The bytes of its mask.
const MASK: usize = 256;

// No bit says that a file has one of so many sectors.
fn set_none(mask: &mut [u8], count: u64)
    requires mask { count ≤ 8 * length mask.old }
    requires few { count ≤ 2048 }
    ensures { HasRunSet mask.old mask.new 0 count false }
{
    set_range(mask, 0, count as usize, false);
}

// Reads what a file has of so many sectors: bits of the mask say which, and their bytes stand in their places.
fn read_sectors<S: Store>(
    store: &mut S,
    source: &mut FileLayer,
    sector: u32,
    first: u64,
    count: u64,
    bytes: &mut [u8],
    mask: &mut [u8],
) -> Result<(), StoreFault>
    requires readable { FileCanBeRead source.old (S.disk store.old) }
    requires sector { sector ≡ (table_parts source.old).sector }
    requires on_disk { first + count ≤ (table_parts source.old).sectors }
    requires bytes { sector * count ≤ length bytes.old }
    requires mask { count ≤ 8 * length mask.old }
    requires few { count ≤ 2048 }
    ensures tells { OnOk result ((layer : chain.Layer) →
        WhereTold (S.disk store.old).told (λ trace. Holds source.old trace layer → Tells sector first count layer mask.new bytes.new)) }
    ensures same { IsSameFile source.old source.new (S.disk store.old) }
    ensures stays { OnOk result (S.disk store.new ≡ S.disk store.old) }
    ensures err { IfErr result (ReadFailed (number_of source.old) (S.disk store.old) (S.disk store.new)) }
{
    let long = (u64::from(sector) * count) as usize;
    set_none(mask, count);
    source.own(store, first, count, &mut bytes[..long], mask, 0)
}

// The same of a file that is in a session.
fn read_own<S: Store>(
    store: &mut S,
    source: &mut Layer,
    sector: u32,
    first: u64,
    count: u64,
    bytes: &mut [u8],
    mask: &mut [u8],
) -> Result<(), StoreFault>
    requires readable { IsReadable source.old (S.disk store.old) }
    requires sector { sector ≡ source.old.tables.parts.sector }
    requires on_disk { first + count ≤ source.old.tables.parts.sectors }
    requires bytes { sector * count ≤ length bytes.old }
    requires mask { count ≤ 8 * length mask.old }
    requires few { count ≤ 2048 }
    ensures tells { OnOk result ((layer : chain.Layer) →
        WhereTold (S.disk store.old).told (λ trace. Holds (kind.Session source.old) trace layer → Tells sector first count layer mask.new bytes.new)) }
    ensures same { IsSame source.old source.new (S.disk store.old) }
    ensures stays { OnOk result (S.disk store.new ≡ S.disk store.old) }
    ensures err { IfErr result (ReadFailed (own_file source.old) (S.disk store.old) (S.disk store.new)) }
{
    let long = (u64::from(sector) * count) as usize;
    set_none(mask, count);
    source.own(store, first, count, &mut bytes[..long], mask, 0)
}

impl Piece {
    /// Room for a piece.
    pub fn new(alloc: Global) -> Result<Piece, NoRoom>
        ensures { IfOk result (λ piece. piece.filled ≡ false) }
    {
        Ok(Piece {
            filled: false,
            stripe: 0,
            stamp: 0,
            first: 0,
            count: 0,
            sector: 512,
            bytes: zeroed(alloc, LONG)?,
            mask: zeroed(alloc, MASK)?,
        })
    }

    /// Whether a piece was taken, and no read failed.
    pub fn is_filled(&self) -> bool
        ensures { result ≡ self.now.filled }
    {
        self.filled
    }

    /// Lets go of what was taken.
    pub fn clear(&mut self)
        ensures { self.new ≡ record self.old { filled = false } }
    {
        self.filled = false;
    }

    /// The stripe that was taken.
    pub fn stripe(&self) -> u32
        ensures { result ≡ (piece_of self.now).stripe }
    {
        self.stripe
    }

    /// The stamp that it was taken under.
    pub fn stamp(&self) -> u64
        ensures { result ≡ (piece_of self.now).stamp }
    {
        self.stamp
    }

    // Keeps the stamp of what was read, and whether it was read whole.
    fn note(&mut self, stamp: u64, is_read: bool)
        ensures { self.new ≡ record self.old { filled = is_read; stamp = stamp } }
    {
        self.filled = is_read;
        self.stamp = stamp;
    }

    /// Takes what a file has of a stripe, under the stripe's stamp. After a fault there is no piece.
    pub fn take<S: Store>(
        &mut self,
        store: &mut S,
        source: &mut FileLayer,
        geometry: Geometry,
        stripe: u32,
        stamp: u64,
    ) -> Result<(), StoreFault>
        requires readable { IsReadableFile geometry (S.disk store.old) source.old }
        requires stripe { stripe < stripes.stripe_count geometry.sector geometry.sectors }
        ensures filled { OnOk result (self.new.filled ≡ true) }
        ensures empty { OnErr result (self.new.filled ≡ false) }
        ensures stripe { self.new.stripe ≡ stripe }
        ensures stamp { self.new.stamp ≡ stamp }
        // It fits into each file of a disk of this geometry.
        ensures fits { (parts : TableParts) → parts.sector ≡ geometry.sector → parts.sectors ≡ geometry.sectors → FitsIn self.new parts }
        ensures held { OnOk result ((layer : chain.Layer) →
            WhereTold (S.disk store.old).told (λ trace. Holds source.old trace layer → IsTaken geometry.sector layer (piece_of self.new))) }
        ensures taken { OnOk result ((file : Placed) →
            WhereTold (S.disk store.old).told (λ trace. HasFile source.old trace file → IsTaken geometry.sector file.member.layer (piece_of self.new))) }
        ensures same { IsSameFile source.old source.new (S.disk store.old) }
        ensures stays { OnOk result (S.disk store.new ≡ S.disk store.old) }
        ensures err { IfErr result (ReadFailed (number_of source.old) (S.disk store.old) (S.disk store.new)) }
    {
        let (first, count) = stripe_range(stripe, geometry);
        let bytes = self.bytes.as_mut_slice();
        let mask = self.mask.as_mut_slice();
        let done = read_sectors(store, source, geometry.sector, first, count, bytes, mask);
        self.stripe = stripe;
        self.first = first;
        self.count = count;
        self.sector = geometry.sector;
        self.note(stamp, done.is_ok());
        done
    }

    /// Takes what a file in a session has of a stripe, as `take` does.
    pub fn take_own<S: Store>(
        &mut self,
        store: &mut S,
        source: &mut Layer,
        geometry: Geometry,
        stripe: u32,
        stamp: u64,
    ) -> Result<(), StoreFault>
        requires readable { IsReadableFile geometry (S.disk store.old) (kind.Session source.old) }
        requires stripe { stripe < stripes.stripe_count geometry.sector geometry.sectors }
        ensures filled { OnOk result (self.new.filled ≡ true) }
        ensures empty { OnErr result (self.new.filled ≡ false) }
        ensures stripe { self.new.stripe ≡ stripe }
        ensures stamp { self.new.stamp ≡ stamp }
        // It fits into each file of a disk of this geometry.
        ensures fits { (parts : TableParts) → parts.sector ≡ geometry.sector → parts.sectors ≡ geometry.sectors → FitsIn self.new parts }
        ensures held { OnOk result ((layer : chain.Layer) →
            WhereTold (S.disk store.old).told (λ trace. Holds (kind.Session source.old) trace layer → IsTaken geometry.sector layer (piece_of self.new))) }
        ensures taken { OnOk result ((file : Placed) →
            WhereTold (S.disk store.old).told (λ trace. Serves source.old trace file → IsTaken geometry.sector file.member.layer (piece_of self.new))) }
        ensures same { IsSame source.old source.new (S.disk store.old) }
        ensures stays { OnOk result (S.disk store.new ≡ S.disk store.old) }
        ensures err { IfErr result (ReadFailed (own_file source.old) (S.disk store.old) (S.disk store.new)) }
    {
        let (first, count) = stripe_range(stripe, geometry);
        let bytes = self.bytes.as_mut_slice();
        let mask = self.mask.as_mut_slice();
        let done = read_own(store, source, geometry.sector, first, count, bytes, mask);
        self.stripe = stripe;
        self.first = first;
        self.count = count;
        self.sector = geometry.sector;
        self.note(stamp, done.is_ok());
        done
    }
}
