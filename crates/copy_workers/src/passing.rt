//! Stripes of a merge that a worker passes over, since the source has nothing of them.

ghost use Rattle.std.specs.Prelude.{◌≡◌, ◌↔◌, ◌<◌, ◌≤◌, true};
ghost use Rattle.copy_workers.specs.Settling.{Settles, found_by};
ghost use Rattle.shared_chain.specs.Fetched.{WasFetched};
ghost use Rattle.shared_chain.specs.Steps.{steps_of};

use guest_model::ChainRefusal;
use merge_core::Piece;
use shared_chain::SharedChain;
use store_model::Store;

/// The stripes from one on, up to another one, that a worker knows to be copied: the source has nothing of them.
#[derive(Clone, Copy)]
pub struct Passed {
    pub from: u32,
    pub to: u32,
}

impl Passed {
    /// Whether a stripe is one of them.
    pub(crate) fn has(&self, stripe: u32) -> bool
        ensures { result ≡ true ↔ (self.now.from ≤ stripe) × (stripe < self.now.to) }
    {
        self.from <= stripe && stripe < self.to
    }
}

/// What was passed over, by the answer: nothing where a step was refused.
pub(crate) fn found_by(answer: Result<Passed, ChainRefusal>) -> Passed
    ensures { result ≡ found_by answer }
{
    match answer {
        Ok(passed) => passed,
        Err(_) => Passed { from: 0, to: 0 },
    }
}

/// Puts what was fetched of a stripe. Where the source has nothing of it, as its entries tell, that stripe is passed over instead, with all behind
/// it of which the same look tells that: those are answered.
pub(crate) fn put_or_pass<S: Store>(
    chain: &mut SharedChain<S>,
    piece: &mut Piece,
) -> Result<Passed, ChainRefusal>
    requires { WasFetched S.disk (steps_of chain.old.chain.recorder chain.old.broke) chain.old.first piece.old }
    ensures { Settles S.disk piece.old chain.old chain.new result }
{
    let stripe = piece.stripe();
    let count = chain.skip_stripes(stripe)?;
    if count > 0 {
        return Ok(Passed {
            from: stripe,
            to: stripe + count,
        });
    }
    chain.put_stripe(piece)?;
    Ok(Passed {
        from: stripe,
        to: stripe,
    })
}
