//! Why a session ended before the client ended it.

use store_model::{SinkFault, SourceFault};

/// What ends a session before the client does. Places are counted in bytes of the source, from 0, and stand still at 2^64 - 1.
#[derive(Clone, Copy)]
pub enum NbdRefusal {
    /// 53: the source ended after `at` bytes, before the client ended the session.
    Cut { at: u64 },
    /// 54: the magic that begins at byte `at` is wrong.
    Magic { at: u64 },
    /// 55: the client asked for another export.
    OtherName,
    /// 56: the length at byte `at` is above the limit.
    TooLong { at: u64 },
    /// 57: the client's flags have other bits than 0 and 1.
    OtherFlags,
    /// The source failed.
    Source(SourceFault),
    /// The sink failed.
    Sink(SinkFault),
    /// As many options and requests came as are served: 2^48.
    Spent,
}

impl From<SourceFault> for NbdRefusal {
    ghost use Rattle.std.specs.Prelude.{◌≡◌};
    ghost use Rattle.nbd_front.specs.declared.refusal.NbdRefusal.TheVariants.{Source};

    ghost from_gives = { λ fault e. e ≡ Source fault };

    fn from(fault: SourceFault) -> NbdRefusal {
        NbdRefusal::Source(fault)
    }
}

impl From<SinkFault> for NbdRefusal {
    ghost use Rattle.std.specs.Prelude.{◌≡◌};
    ghost use Rattle.nbd_front.specs.declared.refusal.NbdRefusal.TheVariants.{Sink};

    ghost from_gives = { λ fault e. e ≡ Sink fault };

    fn from(fault: SinkFault) -> NbdRefusal {
        NbdRefusal::Sink(fault)
    }
}
