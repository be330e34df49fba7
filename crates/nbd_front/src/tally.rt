//! What the replies of a session told.

ghost use Rattle.std.specs.Prelude.{◌≡◌, ◌==◌, ◌||◌, ◌+◌, ◌<◌, ◌^◌};

/// The most options and requests of a session that are answered: a client that sends a million in a second comes to it in nine years.
pub const MOST_MESSAGES: u64 = 0x1_0000_0000_0000;

/// How many messages were answered, whether a reply told of a fault, and whether one told of want of memory.
#[derive(Clone, Copy)]
pub struct Tally {
    pub messages: u64,
    pub fault: bool,
    pub no_room: bool,
}

impl Tally {
    /// Counts a message.
    pub fn count(&mut self)
        requires { self.old.messages < 2 ^ 48 }
        ensures messages { self.new.messages ≡ self.old.messages + 1 }
        ensures fault { self.new.fault ≡ self.old.fault }
        ensures no_room { self.new.no_room ≡ self.old.no_room }
    {
        self.messages += 1;
    }

    /// Counts a request that is replied to with this error.
    pub fn note(&mut self, error: u32)
        requires { self.old.messages < 2 ^ 48 }
        ensures messages { self.new.messages ≡ self.old.messages + 1 }
        ensures fault { self.new.fault ≡ (self.old.fault || (error == 5)) }
        ensures no_room { self.new.no_room ≡ (self.old.no_room || (error == 12)) }
    {
        self.messages += 1;
        self.fault = self.fault || error == 5;
        self.no_room = self.no_room || error == 12;
    }
}
