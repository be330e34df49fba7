//! The steps of a merge that a script's lines ask for.

ghost use Rattle.std.specs.Prelude.{◌≡◌, ◌<◌, ◌^◌, Err, false, IfErr, IfOk};
ghost use Rattle.chain_core.specs.Sessions.{IsSound, seen};
ghost use Rattle.script_session.specs.Answers.{IsSlot};
ghost use Rattle.script_session.specs.MergeSteps.{AnswersCopy, AnswersFetch, AnswersFinish, AnswersPut, AnswersSkip, AnswersTurn, EndsCopy};

use chain_core::Chain;
use guest_model::{ChainRefusal, Recorder};
use merge_core::Piece;
use store_model::Store;

/// Fetches a stripe. A fetch that is refused leaves no piece.
pub fn fetch<S: Store, R: Recorder>(
    chain: &mut Chain<S, R>,
    stripe: u32,
    piece: &mut Piece,
) -> Result<u64, ChainRefusal>
    requires { IsSound (seen S.disk R.noted R.told chain.old) }
    ensures sound { IsSound (seen S.disk R.noted R.told chain.new) }
    ensures slot { IsSlot chain.new.layers.geometry piece.new }
    ensures answers { let before = seen S.disk R.noted R.told chain.old in
        let now = seen S.disk R.noted R.told chain.new in
        AnswersFetch stripe result before now piece.new }
{
    match chain.fetch_live(stripe, piece) {
        Ok(stamp) => Ok(stamp),
        Err(refusal) => {
            piece.clear();
            Err(refusal)
        }
    }
}

// Puts the piece, if one was fetched.
fn put_piece<S: Store, R: Recorder>(
    chain: &mut Chain<S, R>,
    piece: &Piece,
) -> Result<(), ChainRefusal>
    requires sound { IsSound (seen S.disk R.noted R.told chain.old) }
    requires slot { IsSlot chain.old.layers.geometry piece.now }
    ensures sound { IsSound (seen S.disk R.noted R.told chain.new) }
    ensures answers { let before = seen S.disk R.noted R.told chain.old in
        let now = seen S.disk R.noted R.told chain.new in
        AnswersPut piece.now result before now }
{
    if piece.is_filled() {
        return chain.put(piece);
    }
    match chain.check_merge() {
        Ok(()) => Err(ChainRefusal::NoPiece),
        Err(refusal) => Err(refusal),
    }
}

/// Puts what was fetched. Whatever is answered, no piece is left.
pub fn put<S: Store, R: Recorder>(
    chain: &mut Chain<S, R>,
    piece: &mut Piece,
) -> Result<(), ChainRefusal>
    requires sound { IsSound (seen S.disk R.noted R.told chain.old) }
    requires slot { IsSlot chain.old.layers.geometry piece.old }
    ensures sound { IsSound (seen S.disk R.noted R.told chain.new) }
    ensures empty { piece.new.filled ≡ false }
    ensures answers { let before = seen S.disk R.noted R.told chain.old in
        let now = seen S.disk R.noted R.told chain.new in
        AnswersPut piece.old result before now }
{
    let answer = put_piece(chain, piece);
    piece.clear();
    answer
}

/// Fetches a stripe and puts it. Whatever is answered, no piece is left.
pub fn move_stripe<S: Store, R: Recorder>(
    chain: &mut Chain<S, R>,
    stripe: u32,
    piece: &mut Piece,
) -> Result<(), ChainRefusal>
    requires sound { IsSound (seen S.disk R.noted R.told chain.old) }
    ensures sound { IsSound (seen S.disk R.noted R.told chain.new) }
    ensures empty { piece.new.filled ≡ false }
    ensures low { stripe < 2 ^ 32 }
    ensures answers { let before = seen S.disk R.noted R.told chain.old in
        let now = seen S.disk R.noted R.told chain.new in
        AnswersTurn stripe result before now }
{
    match fetch(chain, stripe, piece) {
        Ok(_) => put(chain, piece),
        Err(refusal) => Err(refusal),
    }
}

// Passes over the stripes from this one on that the source has nothing of, as far as one look tells. Answers how many. Whatever is answered,
// no piece is left.
fn pass_over<S: Store, R: Recorder>(
    chain: &mut Chain<S, R>,
    stripe: u32,
    piece: &mut Piece,
) -> Result<u32, ChainRefusal>
    requires { IsSound (seen S.disk R.noted R.told chain.old) }
    ensures sound { IsSound (seen S.disk R.noted R.told chain.new) }
    ensures empty { piece.new.filled ≡ false }
    ensures low { stripe < 2 ^ 32 }
    ensures passed { let before = seen S.disk R.noted R.told chain.old in
        let now = seen S.disk R.noted R.told chain.new in
        IfOk result (λ n. AnswersSkip stripe n before now) }
    ensures refused { let before = seen S.disk R.noted R.told chain.old in
        let now = seen S.disk R.noted R.told chain.new in
        IfErr result (λ e. AnswersTurn stripe (Err e) before now) }
{
    piece.clear();
    chain.skip(stripe)
}

// Passes over what the source has nothing of, and fetches and puts the lowest stripe that isn't copied then, until none is missing or one is
// refused.
fn copy_missing<S: Store, R: Recorder>(
    chain: &mut Chain<S, R>,
    piece: &mut Piece,
) -> Result<(), ChainRefusal>
    requires sound { IsSound (seen S.disk R.noted R.told chain.old) }
    requires slot { IsSlot chain.old.layers.geometry piece.old }
    ensures sound { IsSound (seen S.disk R.noted R.told chain.new) }
    ensures slot { IsSlot chain.new.layers.geometry piece.new }
    ensures answers { let before = seen S.disk R.noted R.told chain.old in
        let now = seen S.disk R.noted R.told chain.new in
        EndsCopy before piece.old result now piece.new }
{
    while let Some(stripe) = chain.missing() {
        if let Err(refusal) = pass_over(chain, stripe, piece) {
            return Err(refusal);
        }
        let Some(next) = chain.missing() else {
            return Ok(());
        };
        if let Err(refusal) = move_stripe(chain, next, piece) {
            return Err(refusal);
        }
    }
    Ok(())
}

/// Copies each stripe of the merge that is missing.
pub fn copy<S: Store, R: Recorder>(
    chain: &mut Chain<S, R>,
    piece: &mut Piece,
) -> Result<(), ChainRefusal>
    requires sound { IsSound (seen S.disk R.noted R.told chain.old) }
    requires slot { IsSlot chain.old.layers.geometry piece.old }
    ensures sound { IsSound (seen S.disk R.noted R.told chain.new) }
    ensures slot { IsSlot chain.new.layers.geometry piece.new }
    ensures answers { let before = seen S.disk R.noted R.told chain.old in
        let now = seen S.disk R.noted R.told chain.new in
        AnswersCopy result before piece.old now piece.new }
{
    match chain.check_merge() {
        Ok(()) => copy_missing(chain, piece),
        Err(refusal) => Err(refusal),
    }
}

/// Finishes the merge.
pub fn finish<S: Store, R: Recorder>(chain: &mut Chain<S, R>) -> Result<(), ChainRefusal>
    requires { IsSound (seen S.disk R.noted R.told chain.old) }
    ensures sound { IsSound (seen S.disk R.noted R.told chain.new) }
    ensures geometry { chain.new.layers.geometry ≡ chain.old.layers.geometry }
    ensures answers { let before = seen S.disk R.noted R.told chain.old in
        let now = seen S.disk R.noted R.told chain.new in
        AnswersFinish result before now }
{
    chain.finish()
}
