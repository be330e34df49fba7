//! What a session keeps.

ghost use Rattle.std.specs.Prelude.{◌≡◌, ◌≤◌, ◌+◌, length, vec_capacity, false, IfOk};

use crate::asking::{MOST_BYTES, PIECE};
use crate::intake::{AHEAD, Intake};
use crate::request::Request;
use crate::tally::Tally;
use std::alloc::{AllocError, Global};
use vx_base::{NoRoom, zeroed};

/// The memory that a connection is served with: 64 KB for what is read ahead, and a page for data and replies. The page has room for
/// the head of a reply and for a piece, or for the longest read so far; memory for the longest one that is allowed, 32 MB, is set aside
/// with it, and is touched when it is needed.
#[derive(Drop)]
pub struct Room {
    ahead: Vec<u8>,
    page: Vec<u8>,
    ghost ahead_len: { length ahead.items ≡ 65536 },
    ghost page_len: { 1048592 ≤ length page.items },
    ghost reserved: { 33554448 ≤ vec_capacity page },
}

// Room for a piece, and memory set aside for the longest read.
fn new_page(alloc: Global) -> Result<Vec<u8>, AllocError>
    ensures len { IfOk result (λ page. 1048592 ≤ length page.items) }
    ensures reserved { IfOk result (λ page. 33554448 ≤ vec_capacity page) }
{
    let mut page = Vec::with_capacity(alloc, 16 + MOST_BYTES as usize)?;
    page.resize(16 + PIECE, 0)?;
    Ok(page)
}

impl Room {
    /// Takes the memory: 33,619,984 bytes, of which a connection touches 1,114,128 at first.
    pub fn new(alloc: Global) -> Result<Room, NoRoom> {
        Ok(Room {
            ahead: zeroed(alloc, AHEAD)?,
            page: new_page(alloc)?,
        })
    }
}

/// What was read ahead, the page, and what the replies told.
#[derive(Drop)]
pub struct Desk {
    pub intake: Intake,
    pub page: Vec<u8>,
    pub tally: Tally,
    ghost page_len: { 1048592 ≤ length page.items },
    ghost reserved: { 33554448 ≤ vec_capacity page },
}

impl Desk {
    /// Nothing was read or replied yet.
    pub fn new(room: Room) -> Desk
        ensures empty { result.intake.end ≡ result.intake.start }
        ensures at { result.intake.at ≡ 0 }
        ensures tally { result.tally ≡ record { messages = 0; fault = false; no_room = false } }
    {
        let Room { ahead, page } = room;
        Desk {
            intake: Intake::new(ahead),
            page,
            tally: Tally {
                messages: 0,
                fault: false,
                no_room: false,
            },
        }
    }
}

/// Makes the page long enough for a read, within the memory that is set aside.
pub fn make_room(page: &mut Vec<u8>, request: &Request)
    requires len { 1048592 ≤ length page.old.items }
    requires reserved { 33554448 ≤ vec_capacity page.old }
    ensures room { request.now.kind ≡ 0 → request.now.len ≤ 33554432 → 16 + request.now.len ≤ length page.new.items }
    ensures kept { 1048592 ≤ length page.new.items }
    ensures reserved { 33554448 ≤ vec_capacity page.new }
{
    if request.kind != 0 || request.len > MOST_BYTES {
        return;
    }
    let len = 16 + request.len as usize;
    if len > page.len() {
        match page.resize(len, 0) {
            Ok(()) => {}
            Err(_) => unreachable!(),
        }
    }
}
