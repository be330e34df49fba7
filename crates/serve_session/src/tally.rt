//! What guests' calls come to.

ghost use Rattle.std.specs.Prelude.{◌≡◌, ◌+◌, ◌^◌, ◌<◌, ◌≤◌, List, length};
ghost use Rattle.std.specs.Option.{option_or};
ghost use Rattle.serve_session.specs.Asking.{outcome_of, shown_in};
ghost use Rattle.serve_session.specs.Served.{Outcome};
ghost use Rattle.serve_session.specs.Tallies.{AddsUp, no_tally, refused_by, seen_of, with_outcome};

use crate::actor::read_bytes;
use guest_io::Placed;
use guest_model::ChainRefusal;
use load_calls::seen_in;
use script::Form;

/// What guests' calls came to.
#[derive(Clone, Copy)]
pub struct Tally {
    /// The sum of the first bytes of all sectors that reads answered.
    pub seen: u64,
    /// The first refusal that a guest was told, of the first guest that was told one.
    pub refused: Option<ChainRefusal>,
}

// What refused a call, if memory didn't run out for it.
fn refused_by(answer: Result<Placed, ChainRefusal>) -> Option<ChainRefusal>
    ensures { result ≡ refused_by answer }
{
    match answer {
        Ok(_) | Err(ChainRefusal::NoRoom) => None,
        Err(refusal) => Some(refusal),
    }
}

// What a call saw, whose bytes stand at the front of the room if it is a read that was answered.
fn seen_by(form: Form, answer: Result<Placed, ChainRefusal>, room: &[u8]) -> u64
    requires { length room.now ≡ 1048576 }
    ensures seen { result ≡ seen_of (outcome_of (shown_in room.now form) answer) }
    ensures few { result ≤ 2 ^ 19 }
{
    match (answer, form) {
        (Ok(Placed { read: Ok(()), .. }), Form::Read { first: _, count }) => {
            seen_in(read_bytes(room, count))
        }
        _ => 0,
    }
}

impl Tally {
    /// Of no call.
    pub(crate) fn none() -> Tally
        ensures { result ≡ no_tally }
    {
        Tally {
            seen: 0,
            refused: None,
        }
    }

    // Of one call.
    fn of(form: Form, answer: Result<Placed, ChainRefusal>, room: &[u8]) -> Tally
        requires { length room.now ≡ 1048576 }
        ensures seen { result.seen ≡ seen_of (outcome_of (shown_in room.now form) answer) }
        ensures few { result.seen ≤ 2 ^ 19 }
        ensures refused { result.refused ≡ refused_by answer }
    {
        Tally {
            seen: seen_by(form, answer, room),
            refused: refused_by(answer),
        }
    }

    /// Of calls and of others behind them.
    pub(crate) fn and(self, others: Tally) -> Tally
        ensures seen { self.seen + others.seen < 2 ^ 64 → result.seen ≡ self.seen + others.seen }
        ensures refused { result.refused ≡ option_or self.refused others.refused }
    {
        Tally {
            seen: self.seen.saturating_add(others.seen),
            refused: self.refused.or(others.refused),
        }
    }

    /// With one more call.
    pub(crate) fn with_call(
        self,
        form: Form,
        answer: Result<Placed, ChainRefusal>,
        room: &[u8],
    ) -> Tally
        requires { length room.now ≡ 1048576 }
        ensures { (outcomes : List Outcome) → length outcomes < 2 ^ 32 → AddsUp self outcomes → AddsUp result (with_outcome outcomes (shown_in room.now form) answer) }
    {
        self.and(Tally::of(form, answer, room))
    }
}
