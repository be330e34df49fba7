//! The steps of a merge, with the slots that they take pieces into and put them from.

ghost use Rattle.std.specs.Prelude.{◌≡◌, ◌<◌, All, false, length};
ghost use Rattle.chain_core.specs.Refusing.{counted};
ghost use Rattle.chain_core.specs.Sessions.{IsSound, leaf_number, seen};
ghost use Rattle.script_session.specs.Answers.{IsSlot};
ghost use Rattle.script_session.specs.MergeSteps.{AnswersFetch, AnswersPut};
ghost use Rattle.event_list.specs.Answered.{FetchesInto, Finishes, PutsFrom, counted_if};

use chain_core::Chain;
use guest_model::{ChainRefusal, Recorder};
use merge_core::Piece;
use store_model::Store;

// Fetches a stripe. A fetch that is refused leaves no piece.
fn fetch<S: Store, R: Recorder>(
    chain: &mut Chain<S, R>,
    stripe: u32,
    piece: &mut Piece,
) -> Result<u64, ChainRefusal>
    requires { IsSound (seen S.disk R.noted R.told chain.old) }
    ensures sound { IsSound (seen S.disk R.noted R.told chain.new) }
    ensures slot { IsSlot chain.new.layers.geometry piece.new }
    ensures answers { let before = seen S.disk R.noted R.told chain.old in
        let now = seen S.disk R.noted R.told chain.new in
        AnswersFetch stripe result before now piece.new }
    ensures leaf { leaf_number chain.new.layers ≡ leaf_number chain.old.layers }
    ensures events { chain.new.events ≡ counted chain.old.events }
{
    match chain.fetch_live(stripe, piece) {
        Ok(stamp) => Ok(stamp),
        Err(refusal) => {
            piece.clear();
            Err(refusal)
        }
    }
}

// Puts the piece, if one was fetched; else it is refused, and the chain counts no event.
fn put_filled<S: Store, R: Recorder>(
    chain: &mut Chain<S, R>,
    piece: &Piece,
) -> Result<(), ChainRefusal>
    requires sound { IsSound (seen S.disk R.noted R.told chain.old) }
    requires slot { IsSlot chain.old.layers.geometry piece.now }
    ensures sound { IsSound (seen S.disk R.noted R.told chain.new) }
    ensures answers { let before = seen S.disk R.noted R.told chain.old in
        let now = seen S.disk R.noted R.told chain.new in
        AnswersPut piece.now result before now }
    ensures leaf { leaf_number chain.new.layers ≡ leaf_number chain.old.layers }
    ensures events { chain.new.events ≡ counted_if piece.now.filled chain.old.events }
{
    if piece.is_filled() {
        return chain.put(piece);
    }
    match chain.check_merge() {
        Ok(()) => Err(ChainRefusal::NoPiece),
        Err(refusal) => Err(refusal),
    }
}

// Puts what was fetched. Whatever is answered, no piece is left.
fn put<S: Store, R: Recorder>(
    chain: &mut Chain<S, R>,
    piece: &mut Piece,
) -> Result<(), ChainRefusal>
    requires sound { IsSound (seen S.disk R.noted R.told chain.old) }
    requires slot { IsSlot chain.old.layers.geometry piece.old }
    ensures sound { IsSound (seen S.disk R.noted R.told chain.new) }
    ensures empty { piece.new.filled ≡ false }
    ensures answers { let before = seen S.disk R.noted R.told chain.old in
        let now = seen S.disk R.noted R.told chain.new in
        AnswersPut piece.old result before now }
    ensures leaf { leaf_number chain.new.layers ≡ leaf_number chain.old.layers }
    ensures events { chain.new.events ≡ counted_if piece.old.filled chain.old.events }
{
    let answer = put_filled(chain, piece);
    piece.clear();
    answer
}

/// Fetches a stripe into a slot. A fetch that is refused leaves no piece in it.
pub(crate) fn fetch_into<S: Store, R: Recorder>(
    chain: &mut Chain<S, R>,
    pieces: &mut [Piece],
    slot: u32,
    stripe: u32,
) -> Result<u64, ChainRefusal>
    requires sound { IsSound (seen S.disk R.noted R.told chain.old) }
    requires slots { All (IsSlot chain.old.layers.geometry) pieces.old }
    requires there { slot < length pieces.old }
    ensures sound { IsSound (seen S.disk R.noted R.told chain.new) }
    ensures slots { All (IsSlot chain.new.layers.geometry) pieces.new }
    ensures answers { let before = seen S.disk R.noted R.told chain.old in
        let now = seen S.disk R.noted R.told chain.new in
        FetchesInto slot stripe result before pieces.old now pieces.new }
{
    let at = slot as usize;
    fetch(chain, stripe, &mut pieces[at])
}

/// Puts what was fetched into a slot. Whatever is answered, no piece is left in it.
pub(crate) fn put_from<S: Store, R: Recorder>(
    chain: &mut Chain<S, R>,
    pieces: &mut [Piece],
    slot: u32,
) -> Result<(), ChainRefusal>
    requires sound { IsSound (seen S.disk R.noted R.told chain.old) }
    requires slots { All (IsSlot chain.old.layers.geometry) pieces.old }
    requires there { slot < length pieces.old }
    ensures sound { IsSound (seen S.disk R.noted R.told chain.new) }
    ensures slots { All (IsSlot chain.new.layers.geometry) pieces.new }
    ensures answers { let before = seen S.disk R.noted R.told chain.old in
        let now = seen S.disk R.noted R.told chain.new in
        PutsFrom slot result before pieces.old now pieces.new }
{
    let at = slot as usize;
    put(chain, &mut pieces[at])
}

/// Finishes the merge.
pub(crate) fn finish<S: Store, R: Recorder>(chain: &mut Chain<S, R>) -> Result<(), ChainRefusal>
    requires { IsSound (seen S.disk R.noted R.told chain.old) }
    ensures sound { IsSound (seen S.disk R.noted R.told chain.new) }
    ensures answers { let before = seen S.disk R.noted R.told chain.old in
        let now = seen S.disk R.noted R.told chain.new in
        Finishes result before now }
{
    chain.finish()
}
