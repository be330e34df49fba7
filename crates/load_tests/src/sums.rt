//! Sums and texts.

use crate::asking::{ask, done};
use load_calls::{one_thread_text, page_sum, seen_in};
use std::process::Abort;

// Three sectors whose first bytes are 1, 2 and 3, and no other of whose bytes is zero.
fn sectors<R: Abort>(rt: &R, alloc: std::alloc::Global) -> Vec<u8> {
    let mut bytes = done(rt, vec![in alloc; 9u8; 1536]);
    for k in 0..3 {
        if let Some(first) = bytes.get_mut(512 * k) {
            *first = k as u8 + 1;
        }
    }
    bytes
}

#[test]
fn first_bytes_are_summed(rt: HostRuntime) {
    let bytes = sectors(&rt, rt.alloc());
    let short = bytes.len() == 1536;
    if short {
        ask(&rt, 0, seen_in(bytes.as_slice()) == 6);
        ask(&rt, 1, page_sum(10, bytes.as_slice()) == 11 + 24 + 39);
    }
    ask(&rt, 2, short);
}

static TEXTS: [(u32, &str); 4] = [
    (
        0,
        "calls 1024 writes 532 trims 140 reads 234 flushes 118\ndisk 42663447992\nseen 4042\n",
    ),
    (
        1,
        "calls 1024 writes 539 trims 127 reads 231 flushes 127\ndisk 46838485085\nseen 4126\n",
    ),
    (
        2,
        "calls 1024 writes 484 trims 145 reads 268 flushes 127\ndisk 42967629622\nseen 3321\n",
    ),
    (
        4_294_967_295,
        "calls 1024 writes 502 trims 136 reads 255 flushes 131\ndisk 44311922734\nseen 3194\n",
    ),
];

#[test]
fn texts_are_as_computed(rt: HostRuntime) {
    for (k, (seed, text)) in TEXTS.iter().enumerate() {
        let found = done(&rt, one_thread_text(rt.alloc(), *seed));
        ask(&rt, k, found.as_str() == *text);
    }
}
