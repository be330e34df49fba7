//! The slots that pieces are fetched into and put from.

ghost use Rattle.std.specs.Prelude.{◌≡◌, ◌≤◌, ℕ, All, false, length, IfOk, IsOk};
ghost use Rattle.event_list.specs.Answered.{IsBelow};

use crate::event::Event;
use merge_core::Piece;
use std::alloc::Global;
use vx_base::NoRoom;

// How many slots an event needs, all of them up to its own.
fn slots_for(event: &Event) -> usize
    requires { IsBelow 64 event.now }
    ensures few { result ≤ 64 }
    ensures below { IsBelow result event.now }
    ensures least { (most : ℕ) → IsBelow most event.now → result ≤ most }
{
    match event {
        Event::Guest { .. } | Event::Finish => 0,
        Event::Fetch { slot, stripe: _ } => *slot as usize + 1,
        Event::Put { slot } => *slot as usize + 1,
    }
}

/// How many slots some events need: all up to the greatest that one of them names.
pub(crate) fn slot_count(events: &[Event]) -> usize
    requires { All (IsBelow 64) events.now }
    ensures few { result ≤ 64 }
    ensures below { All (IsBelow result) events.now }
    ensures least { (most : ℕ) → All (IsBelow most) events.now → result ≤ most }
{
    let mut count = 0;
    for event in events {
        count = slots_for(event).max(count);
    }
    count
}

/// Room for a piece in each of so many slots, with nothing fetched yet.
pub(crate) fn empty_slots(alloc: Global, count: usize) -> Result<Vec<Piece>, NoRoom>
    ensures count { IfOk result (λ pieces. length pieces.items ≡ count) }
    ensures empty { IfOk result (λ pieces. All (λ piece. piece.filled ≡ false) pieces.items) }
    ensures none { count ≡ 0 → IsOk result }
{
    let mut pieces = Vec::new(alloc);
    for _ in 0..count {
        pieces.push(Piece::new(alloc)?)?;
    }
    Ok(pieces)
}
