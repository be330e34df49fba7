//! A client that waits for each answer before it goes on.

ghost use Rattle.std.specs.Prelude.{◌≡◌, ◌≤◌, ◌<◌, length};

use std::cell::Cell;
use store_model::{Sink, SinkFault, Source, SourceFault};

/// What a client sends next, and how many bytes it has been sent by then.
pub struct Turn {
    pub bytes: &'static [u8],
    pub sent: usize,
}

/// The client: it sends what comes next once it has been sent so many bytes, and hangs up where it is asked for more before.
#[derive(Drop)]
pub struct Client<'a> {
    pub turns: &'a [Turn],
    pub next: usize,
    pub sent: &'a Cell<usize>,
}

impl Source for Client<'_> {
    ghost use Rattle.std.specs.Prelude.{None};

    ghost left = { λ s. None };

    ghost faults = { λ s. 0 };

    fn read(&mut self, out: &mut [u8]) -> Result<usize, SourceFault> {
        let Some(turn) = self.turns.get(self.next) else {
            return Ok(0);
        };
        let n = turn.bytes.len();
        if self.sent.get() != turn.sent || n > out.len() {
            return Ok(0);
        }
        out[..n].copy_from_slice(turn.bytes);
        self.next += 1;
        Ok(n)
    }
}

/// What it is sent is counted.
#[derive(Drop)]
pub struct Counted<'a> {
    pub sent: &'a Cell<usize>,
}

impl Sink for Counted<'_> {
    ghost use Rattle.std.specs.Prelude.{None};

    ghost written = { λ s. None };

    ghost faults = { λ s. 0 };

    fn write(&mut self, bytes: &[u8]) -> Result<usize, SinkFault> {
        self.sent.set(self.sent.get().wrapping_add(bytes.len()));
        Ok(bytes.len())
    }
}
