//! Clients that are cut off, or break the protocol: the run is refused, and what was flushed before is there.

use crate::common::{DISK, ask_sectors, ask_sent, client_refused, made, source_of};
use crate::wire::{GREETING, put, put_flags, put_many, put_option, put_reply, put_request};
use std::alloc::Global;
use std::process::Abort;
use std::sync::Wait;
use std::thread::Threads;

// How far a client comes before it breaks off.
#[derive(Clone, Copy, PartialEq, Eq)]
enum Before {
    // To no message.
    Nothing,
    // To its flags.
    Flags,
    // To a sector that is written and flushed.
    Flush,
}

// What follows what breaks the protocol, were this let pass.
#[derive(Clone, Copy, PartialEq, Eq)]
enum Rest {
    // Nothing: the client is cut off.
    Nothing,
    // The option that names the export, and a disconnect.
    Options,
    // A disconnect.
    End,
}

// A client: what comes before, its last bytes, of which the last one is repeated so many times, and what would follow.
#[derive(Clone, Copy)]
struct Broken {
    what: &'static str,
    before: Before,
    last: &'static [u8],
    more: usize,
    rest: Rest,
}

const CUT: Broken = Broken {
    what: "cut off before its flags",
    before: Before::Nothing,
    last: b"",
    more: 0,
    rest: Rest::Nothing,
};

static HANDSHAKES: [Broken; 13] = [
    CUT,
    Broken {
        what: "cut off in its flags",
        last: b"\x00\x00\x00",
        ..CUT
    },
    Broken {
        what: "other flags",
        last: b"\x00\x00\x00\x04",
        rest: Rest::Options,
        ..CUT
    },
    Broken {
        what: "other flags beside the two",
        last: b"\x80\x00\x00\x03",
        rest: Rest::Options,
        ..CUT
    },
    Broken {
        what: "cut off before an option",
        before: Before::Flags,
        ..CUT
    },
    Broken {
        what: "cut off in an option's magic",
        before: Before::Flags,
        last: b"IHAVEOP",
        ..CUT
    },
    Broken {
        what: "cut off in an option's length",
        before: Before::Flags,
        last: b"IHAVEOPT\x00\x00\x00\x01\x00\x00\x00",
        ..CUT
    },
    Broken {
        what: "cut off in an option's data",
        before: Before::Flags,
        last: b"IHAVEOPT\x00\x00\x00\x01\x00\x00\x00\x06d.vhd",
        ..CUT
    },
    Broken {
        what: "cut off in the data of an option that isn't served",
        before: Before::Flags,
        last: b"IHAVEOPT\x00\x00\x00\x07\x00\x01\x00\x00\x00",
        more: 65_534,
        ..CUT
    },
    Broken {
        what: "another option magic",
        before: Before::Flags,
        last: b"IHAVEOPS\x00\x00\x00\x07\x00\x00\x00\x00",
        rest: Rest::Options,
        ..CUT
    },
    Broken {
        what: "another export",
        before: Before::Flags,
        last: b"IHAVEOPT\x00\x00\x00\x01\x00\x00\x00\x06e.vhdx",
        rest: Rest::End,
        ..CUT
    },
    Broken {
        what: "an export whose name goes on",
        before: Before::Flags,
        last: b"IHAVEOPT\x00\x00\x00\x01\x00\x00\x00\x07d.vhdx2",
        rest: Rest::End,
        ..CUT
    },
    Broken {
        what: "an option of 65,537 bytes",
        before: Before::Flags,
        last: b"IHAVEOPT\x00\x00\x00\x07\x00\x01\x00\x01\x00",
        more: 65_536,
        rest: Rest::Options,
        ..CUT
    },
];

static REQUESTS: [Broken; 8] = [
    Broken {
        what: "cut off before a request",
        before: Before::Flush,
        ..CUT
    },
    Broken {
        what: "cut off in a request's magic",
        before: Before::Flush,
        last: b"\x25\x60\x95",
        ..CUT
    },
    Broken {
        what: "cut off in a request's length",
        before: Before::Flush,
        last: b"\x25\x60\x95\x13\x00\x00\x00\x00a cookie\x00\x00\x00\x00\x00\x00\x00\x00\x00\x00\x02",
        ..CUT
    },
    Broken {
        what: "cut off before a write's data",
        before: Before::Flush,
        last: b"\x25\x60\x95\x13\x00\x00\x00\x01a cookie\x00\x00\x00\x00\x00\x00\x02\x00\x00\x00\x02\x00",
        ..CUT
    },
    Broken {
        what: "cut off in a write's data",
        before: Before::Flush,
        last: b"\x25\x60\x95\x13\x00\x00\x00\x01a cookie\x00\x00\x00\x00\x00\x00\x02\x00\x00\x00\x02\x00\xCC",
        more: 510,
        ..CUT
    },
    Broken {
        what: "cut off in the data of a write that isn't made",
        before: Before::Flush,
        last: b"\x25\x60\x95\x13\x00\x00\x00\x01a cookie\x00\x00\x00\x00\x40\x00\x00\x00\x00\x00\x02\x00\xCC",
        more: 510,
        ..CUT
    },
    Broken {
        what: "another request magic",
        before: Before::Flush,
        last: b"\x25\x60\x95\x12\x00\x00\x00\x03a cookie\x00\x00\x00\x00\x00\x00\x00\x00\x00\x00\x00\x00",
        rest: Rest::End,
        ..CUT
    },
    Broken {
        what: "an option among the requests",
        before: Before::Flush,
        last: b"IHAVEOPT\x00\x00\x00\x01\x00\x00\x00\x00",
        rest: Rest::End,
        ..CUT
    },
];

// Its data aren't waited for.
static LONG_WRITE: Broken = Broken {
    what: "a write of 33,554,433 bytes",
    before: Before::Flush,
    last: b"\x25\x60\x95\x13\x00\x00\x00\x01a cookie\x00\x00\x00\x00\x00\x00\x02\x00\x02\x00\x00\x01\xCC",
    more: 33_554_432,
    rest: Rest::End,
    ..CUT
};

// Adds what a client sends before it breaks off, and what it is sent for that.
fn put_before<R: Abort>(rt: &R, before: Before, client: &mut Vec<u8>, sent: &mut Vec<u8>) {
    put(rt, sent, GREETING);
    if before == Before::Nothing {
        return;
    }
    put_flags(rt, client);
    if before == Before::Flags {
        return;
    }
    put_option(rt, client, 1, 0);
    put(rt, sent, b"\x00\x00\x00\x00\x40\x00\x00\x00\x00\x2D");
    put_request(rt, client, 1, 0, b"write it", 0, 512);
    put_many(rt, client, 0xAA, 512);
    put_reply(rt, sent, b"write it", 0);
    put_request(rt, client, 3, 0, b"flush it", 0, 0);
    put_reply(rt, sent, b"flush it", 0);
}

// Adds the last bytes of a client, and what would follow them.
fn put_last<R: Abort>(rt: &R, broken: &Broken, client: &mut Vec<u8>) {
    put(rt, client, broken.last);
    let last = broken.last.last().copied().unwrap_or(0);
    put_many(rt, client, last, broken.more);
    if broken.rest == Rest::Options {
        put_option(rt, client, 1, 0);
    }
    if broken.rest != Rest::Nothing {
        put_request(rt, client, 2, 0, b"the end.", 0, 0);
    }
}

// Asks that the run is refused, and that the client is sent what its whole messages are answered.
fn ask_refused<R: Abort + Threads + Wait + Sync>(rt: &R, alloc: Global, broken: &Broken) {
    let mut client = Vec::new(alloc);
    let mut sent = Vec::new(alloc);
    put_before(rt, broken.before, &mut client, &mut sent);
    put_last(rt, broken, &mut client);
    let mut host = made(rt, alloc, DISK);
    let mut input = source_of(alloc, client, 1_000);
    let line = "nbd d.vhdx --workers 0";
    let out = client_refused(rt, alloc, line, broken.what, &mut input, &mut host);
    ask_sent(rt, &out, &sent, broken.what);
    let first = if broken.before == Before::Flush {
        0xAA
    } else {
        0
    };
    ask_sectors(rt, alloc, "d.vhdx", 0, &[first, 0], &mut host);
}

#[test]
fn handshakes_that_break_off(rt: HostRuntime) {
    for broken in &HANDSHAKES {
        ask_refused(&rt, rt.alloc(), broken);
    }
}

#[test]
fn requests_that_break_off(rt: HostRuntime) {
    for broken in &REQUESTS {
        ask_refused(&rt, rt.alloc(), broken);
    }
}

#[test]
fn a_write_that_is_too_long(rt: HostRuntime) {
    ask_refused(&rt, rt.alloc(), &LONG_WRITE);
}
