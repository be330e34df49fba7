//! Entries of a history as they are kept.

ghost use Rattle.std.specs.Prelude.{◌≡◌, length, replicate, IfOk, IfSome};
ghost use Rattle.guest_model.specs.Calls.{entry_of};

use crate::call::{CallRef, Caller};
use std::alloc::{AllocError, Global};
use std::marker::Model;

/// The bytes of a write, seen as the list of them: one byte that stands there so often, and what follows it. A write of one byte all through
/// takes no memory of its own.
#[derive(Drop)]
pub struct KeptBytes {
    byte: u8,
    count: usize,
    rest: Vec<u8>,
}

impl Model for KeptBytes {
    ghost use Rattle.std.specs.Prelude.{List, ℕ, ◌++◌, replicate};

    ghost Value = { List ℕ };

    ghost view = { λ b. replicate b.count b.byte ++ b.rest.items };
}

// The byte that all of these are, if there are any and they are one.
fn repeated(bytes: &[u8]) -> Option<u8>
    ensures { IfSome result (λ byte. bytes.now ≡ replicate (length bytes.now) byte) }
{
    let (byte, rest) = bytes.split_first()?;
    if rest == &bytes[..rest.len()] {
        Some(*byte)
    } else {
        None
    }
}

impl KeptBytes {
    // These bytes.
    fn new(alloc: Global, bytes: &[u8]) -> Result<KeptBytes, AllocError>
        ensures { IfOk result (λ b. b ≡ bytes.now) }
    {
        let mut rest = Vec::new(alloc);
        if let Some(byte) = repeated(bytes) {
            return Ok(KeptBytes {
                byte,
                count: bytes.len(),
                rest,
            });
        }
        rest.extend_from_slice(bytes)?;
        Ok(KeptBytes {
            byte: 0,
            count: 0,
            rest,
        })
    }
}

/// A call as it is kept.
#[derive(Drop)]
pub enum KeptCall {
    Read { first: u64, count: u64 },
    Write { first: u64, bytes: KeptBytes },
    Trim { first: u64, count: u64 },
    Flush,
}

/// An entry of a history as it is kept; seen as that entry.
#[derive(Drop)]
pub struct Kept {
    who: Caller,
    call: KeptCall,
}

impl Model for Kept {
    ghost use Rattle.guest_model.specs.declared.call.Entry.{Entry};
    ghost use Rattle.guest_model.specs.Kept.{kept_entry};

    ghost Value = { Entry };

    ghost view = { λ k. kept_entry k.who k.call };
}

impl Kept {
    /// A caller's call, with bytes of its own.
    pub(crate) fn new(alloc: Global, who: Caller, call: CallRef<'_>) -> Result<Kept, AllocError>
        ensures { IfOk result (λ k. k ≡ entry_of who call.entry) }
    {
        let call = match call {
            CallRef::Read { first, count } => KeptCall::Read { first, count },
            CallRef::Write { first, bytes } => KeptCall::Write {
                first,
                bytes: KeptBytes::new(alloc, bytes)?,
            },
            CallRef::Trim { first, count } => KeptCall::Trim { first, count },
            CallRef::Flush => KeptCall::Flush,
        };
        Ok(Kept { who, call })
    }

    /// Who called.
    pub fn caller(&self) -> Caller
        ensures guest { result.guest ≡ self.now.guest }
        ensures number { result.no ≡ self.now.no }
    {
        self.who
    }
}
