//! Pieces are put.

ghost use Rattle.std.specs.Prelude.{◌≡◌, ◌+◌, ◌-◌, ◌≤◌, ◌^◌, ℕ, true, false, None, Ok, Err, IfErr, OnOk};
ghost use Rattle.store_model.specs.Disk.{WhereBothTold};
ghost use Rattle.layer_session.specs.Calls.{Fails, HasKept, KeepsOver, OnBroken, OnRefused, OnRoom};
ghost use Rattle.layer_session.specs.Keeping.{IsReadable, IsReady};
ghost use Rattle.layer_session.specs.Steps.{has_room, is_full};
ghost use Rattle.layer_session.specs.declared.file.LayerFault.{LayerFault};
ghost use Rattle.merge_core.specs.Pieces.{FitsIn, HasPutPiece, HoldsBesidePiece, PutsPiece, has_sector, sectors_of};

use crate::piece::Piece;
use layer_session::{Layer, LayerFault};
use store_model::Store;

/// Writes the sectors of a piece into a file, which has them then; no other sector changes.
pub fn put_piece<S: Store>(
    store: &mut S,
    target: &mut Layer,
    piece: &Piece,
) -> Result<(), LayerFault>
    requires ready { IsReady target.old (S.disk store.old) }
    requires fits { FitsIn piece.now target.old.tables.parts }
    requires numbers { target.old.log.number + 1 ≤ 2 ^ 64 - 2 ^ 32 }
    // At each moment, whatever it answers, in every image without a torn match.
    ensures moments { WhereBothTold (PutsPiece target.old piece.now) (S.disk store.old).told (S.disk store.new).told }
    ensures put { OnOk result (WhereBothTold (HasPutPiece target.old target.new piece.now) (S.disk store.old).told (S.disk store.new).told) }
    ensures ready { OnOk result (IsReady target.new (S.disk store.new)) }
    // A refused call has changed nothing of the file, though it may have committed.
    ensures refused { OnRefused result (IsReady target.new (S.disk store.new)) }
    ensures kept { OnRefused result (WhereBothTold (HasKept target.old target.new) (S.disk store.old).told (S.disk store.new).told) }
    ensures quiet { OnRefused result (WhereBothTold (KeepsOver target.old) (S.disk store.old).told (S.disk store.new).told) }
    ensures broken { OnBroken result (IsReadable target.new (S.disk store.new)
        × WhereBothTold (HoldsBesidePiece target.old target.new piece.now) (S.disk store.old).told (S.disk store.new).told) }
    ensures parts { target.new.tables.parts ≡ target.old.tables.parts }
    ensures header { target.new.log.header ≡ target.old.log.header }
    // It commits once at most.
    ensures number { target.new.log.number ≤ target.old.log.number + 1 }
    ensures counts { OnOk result (S.disk store.new ≡ record (S.disk store.old) { told = (S.disk store.new).told }) }
    ensures err { IfErr result (Fails target.old.tables.parts.file (S.disk store.old) (S.disk store.new)) }
    // A piece without a sector changes nothing.
    ensures nothing { ((s : ℕ) → sectors_of piece.now s ≡ None) → (result ≡ Ok tt) × ((target.new ≡ target.old) × (store.new ≡ store.old)) }
    // Refused for want of room exactly where there is none.
    ensures full { (next : ℕ) → result ≡ Err (LayerFault.FileFull next) → is_full false piece.now.first piece.now.count next target.old (S.disk store.old) }
    ensures room { (s : ℕ) → has_sector piece.now s ≡ true → OnRoom result (has_room false piece.now.first piece.now.count target.old (S.disk store.old)) }
{
    let long = (u64::from(piece.sector) * piece.count) as usize;
    let bytes = &piece.bytes.as_slice()[..long];
    target.put_masked(
        store,
        piece.first,
        piece.count,
        bytes,
        piece.mask.as_slice(),
    )
}
