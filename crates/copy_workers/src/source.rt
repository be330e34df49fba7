//! What a worker reads the source of a merge by, outside the chain.

ghost use Rattle.std.specs.Prelude.{◌≡◌, ◌<◌, IfErr, IfSome, OnErr, OnOk, false, length, map, slice_index};
ghost use Rattle.store_model.specs.Disk.{SealedReadFailed, WhereTold};
ghost use Rattle.chain_model.specs.Layers as chain;
ghost use Rattle.chain_model.specs.Stripes as stripes;
ghost use Rattle.chain_core.specs.Copying.{FitsDisk};
ghost use Rattle.copy_workers.specs.Sources.{AreSameSources, CanFetch, CanReadStripe, Fetches, IsPlaced, IsSameSource};
ghost use Rattle.merge_core.specs.Pieces.{IsTaken, piece_of};
ghost use Rattle.read_plan.specs.Reading.{ReaderFailed};
ghost use Rattle.sealed_layer.specs.Sealed.{HoldsSealed};

use chain_core::SealedSource;
use merge_core::Piece;
use read_plan::ReaderSet;
use sealed_file::SealedFile;
use std::marker::Model;
use store_model::{ReadFault, Reader, StoreFault};

/// The source of a merge as it is read: by which of the worker's readers, and how.
#[derive(Drop)]
pub struct Source {
    pub at: usize,
    pub read: SealedSource,
}

/// Readers of sealed files, of which one may be of the source of the merge.
#[derive(Drop)]
pub struct SourceReaders<R: Reader> {
    files: Vec<SealedFile<R>>,
    source: Option<Source>,
}

impl<R: Reader> Model for SourceReaders<R> {
    ghost use Rattle.std.specs.Prelude.{map};
    ghost use Rattle.copy_workers.specs.Readings.{Reading};

    ghost Value = { Reading };

    ghost view = { λ s. record { readers = map (λ f. R.sealed f.reader) s.files.items; source = s.source } };
}

// Which of some files has this number, the first one.
fn find<R: Reader>(files: &[SealedFile<R>], number: u32) -> Option<usize>
    ensures inside { IfSome result (λ i. i < length files.now) }
    ensures number { IfSome result (λ i. slice_index (map (λ f. (R.sealed f.reader).file) files.now) i ≡ number) }
{
    for (i, file) in files.iter().enumerate() {
        if file.number() == number {
            return Some(i);
        }
    }
    None
}

// The same fault of the file of this number.
fn of_file(file: u32, count: u64) -> ReadFault
    ensures file { result.file ≡ file }
    ensures count { result.count ≡ count }
{
    ReadFault { file, count }
}

// Takes what the source has of a stripe, by a reader of it. After a fault there is no piece.
fn read_stripe<R: Reader>(
    file: &mut SealedFile<R>,
    source: &mut SealedSource,
    stripe: u32,
    piece: &mut Piece,
) -> Result<(), ReadFault>
    requires readable { CanReadStripe (R.sealed file.old.reader) source.old }
    requires stripe { stripe < stripes.stripe_count source.old.geometry.sector source.old.geometry.sectors }
    ensures empty { OnErr result (piece.new.filled ≡ false) }
    ensures stripe { piece.new.stripe ≡ stripe }
    ensures stamp { piece.new.stamp ≡ 0 }
    ensures fits { FitsDisk source.old.geometry piece.new }
    ensures taken { OnOk result ((layer : chain.Layer) →
        WhereTold (R.sealed file.old.reader).content (λ bytes. HoldsSealed source.old.layer bytes layer → IsTaken source.old.geometry.sector layer (piece_of piece.new))) }
    ensures same { IsSameSource (R.sealed file.old.reader) source.old source.new }
    ensures stays { OnOk result (R.sealed file.new.reader ≡ R.sealed file.old.reader) }
    ensures err { IfErr result (SealedReadFailed (R.sealed file.old.reader) (R.sealed file.new.reader)) }
{
    let number = file.number();
    let geometry = source.geometry;
    match piece.take(file, &mut source.layer, geometry, stripe, 0) {
        Ok(()) => Ok(()),
        Err(StoreFault { file: _, count }) => Err(of_file(number, count)),
    }
}

impl<R: Reader> SourceReaders<R> {
    /// These readers, with the source where one of them is of it.
    pub(crate) fn new(readers: ReaderSet<R>, source: Option<SealedSource>) -> SourceReaders<R>
        ensures readers { result.readers ≡ readers }
        ensures source { IsPlaced readers source result.source }
    {
        let files = readers.into_files();
        let Some(read) = source else {
            return SourceReaders {
                files,
                source: None,
            };
        };
        let source = match find(files.as_slice(), read.file) {
            Some(at) => Some(Source { at, read }),
            None => None,
        };
        SourceReaders { files, source }
    }

    /// Takes what the source has of a stripe. Where no reader is of the source, or the disk has no such stripe, nothing is taken.
    pub(crate) fn fetch(&mut self, stripe: u32, piece: &mut Piece) -> Result<(), ReadFault>
        requires can { IfSome self.old.source (CanFetch self.old.readers) }
        requires empty { piece.old.filled ≡ false }
        ensures fetched { OnOk result (Fetches stripe self.old piece.new) }
        ensures same { AreSameSources self.old self.new }
        ensures stays { OnOk result (self.new.readers ≡ self.old.readers) }
        ensures err { IfErr result (ReaderFailed self.old.readers self.new.readers) }
    {
        let Some(mut source) = self.source.take() else {
            return Ok(());
        };
        if stripe >= source.read.stripes {
            self.source = Some(source);
            return Ok(());
        }
        let file = &mut self.files[source.at];
        let taken = read_stripe(file, &mut source.read, stripe, piece);
        self.source = Some(source);
        taken
    }

    /// The readers.
    pub(crate) fn into_readers(self) -> ReaderSet<R>
        ensures { result ≡ self.readers }
    {
        let SourceReaders { files, source: _ } = self;
        ReaderSet::of(files)
    }
}
