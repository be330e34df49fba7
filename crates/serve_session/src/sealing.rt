//! What guests read sealed files by.

ghost use Rattle.std.specs.Prelude.{◌≡◌, All, None, IfErr, IfOk, is_some, length, true};
ghost use Rattle.chain_core.specs.Sessions.{IsSound};
ghost use Rattle.shared_chain.specs.Homes.{session_of};
ghost use Rattle.serve_session.specs.Sealing.{EndsUnserved, IsSealing, IsSetFor, ServesFirst};
ghost use Rattle.store_model.specs.Disk.{fault_in};

use chain_core::Chain;
use ledger::Ledger;
use read_plan::Readers;
use shared_chain::end_fresh;
use std::alloc::Global;
use store_model::{SealFault, Store, StoreFault};

/// What a session left that ended before a guest was served.
pub struct Unserved<S: Store> {
    pub store: S,
    /// The fault of the read that failed; none where memory ran out.
    pub met: Option<StoreFault>,
    pub closed: Result<(), StoreFault>,
}

// The fault by which a seal failed, if memory didn't run out.
fn fault_in(fault: SealFault) -> Option<StoreFault>
    ensures { result ≡ fault_in fault }
{
    match fault {
        SealFault::Store(fault) => Some(fault),
        SealFault::NoRoom => None,
    }
}

/// Seals what a session only reads that has just begun, and makes a set of readers of it for each of so many guests. Where a read fails, or
/// memory runs out, the session ends.
pub fn seal<S: Store>(
    alloc: Global,
    chain: Chain<S, Ledger>,
    guests: u32,
) -> Result<(Chain<S, Ledger>, Readers<S::R>), Unserved<S>>
where
    S::R: Drop,
    requires sound { IsSound (session_of S.disk chain) }
    requires whole { chain.broken ≡ None }
    requires session { is_some chain.layers.leaf ≡ true }
    requires serves { ServesFirst S.disk chain }
    ensures sealed { IfOk result (λ made. IsSealing S.disk chain made.0 None) }
    ensures count { IfOk result (λ made. length made.1 ≡ guests) }
    ensures sets { IfOk result (λ made. All (IsSetFor S.disk made.0) made.1) }
    ensures ended { IfErr result (λ left. EndsUnserved S.disk chain left.store left.met left.closed) }
{
    let mut chain = chain;
    match chain.seal(alloc, guests) {
        Ok(readers) => Ok((chain, readers)),
        Err(fault) => {
            let met = fault_in(fault);
            let (store, closed) = end_fresh(chain);
            Err(Unserved { store, met, closed })
        }
    }
}
