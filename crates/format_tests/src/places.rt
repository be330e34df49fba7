//! Entries of the block allocation table, places for blocks, and bits of a sector bitmap.

use crate::asking::ask;
use bat_entry::{
    BadState, BatEntry, bitmap_index, chunk_ratio, entry_count, pack, payload_index, unpack,
};
use block_alloc::{Alloc, FileFull};
use sector_bits::{Run, get, runs, set_range};

const ENTRY: BatEntry = BatEntry { state: 6, unit: 5 };

#[test]
fn entries(rt: HostRuntime) {
    ask(&rt, 1, unpack(0x0000000000500006) == Ok(ENTRY));
    let bytes = [6, 0, 0x50, 0, 0, 0, 0, 0];
    ask(&rt, 2, pack(ENTRY).to_le_bytes() == bytes);
    ask(&rt, 3, unpack(4) == Err(BadState { state: 4 }));
    ask(&rt, 4, chunk_ratio(512, 1_048_576) == 4_096);
    ask(&rt, 5, payload_index(4_096, 4_096) == 4_097);
    ask(&rt, 6, bitmap_index(0, 4_096) == 4_096);
    ask(&rt, 7, entry_count(4_097, 4_096, false) == 4_098);
    ask(&rt, 8, entry_count(4_097, 4_096, true) == 8_194);
}

// The last unit that a file can have.
const LAST: u64 = (1 << 43) - 1;

const AT_THE_LAST: FileFull = FileFull { next: LAST };

const BEHIND_IT: FileFull = FileFull { next: 1 << 43 };

#[test]
fn the_last_unit_is_given_once(rt: HostRuntime) {
    let mut space = Alloc::new(LAST);
    ask(&rt, 1, space.fits(1, 1, 0) == Ok(()));
    ask(&rt, 2, space.fits(1, 1, 1) == Err(AT_THE_LAST));
    ask(&rt, 3, space.take(1) == Ok(LAST));
    ask(&rt, 4, space.take(1) == Err(BEHIND_IT));
    ask(&rt, 5, space.take_end() == Err(BEHIND_IT));
}

#[test]
#[tactic(auto, unfolding(block_alloc::specs::Spaces::IsApartFrom))]
fn a_place_is_given_again_once_its_freeing_is_committed(rt: HostRuntime) {
    let mut space = Alloc::new(40);
    space.free_after_commit(30, 2);
    ask(&rt, 1, space.take(2) == Ok(40));
    space.committed();
    ask(&rt, 2, space.take(1) == Ok(42));
    ask(&rt, 3, space.take(2) == Ok(30));
    ask(&rt, 4, space.take(2) == Ok(43));
}

#[test]
fn bits_are_set_in_ranges(rt: HostRuntime) {
    let mut bits = [0xffu8; 4];
    set_range(&mut bits, 6, 20, false);
    ask(&rt, 1, bits == [0x3f, 0, 0, 0xfc]);
    set_range(&mut bits, 9, 3, true);
    ask(&rt, 2, bits == [0x3f, 0x0e, 0, 0xfc]);
    ask(&rt, 3, get(&bits, 9));
    ask(&rt, 4, !get(&bits, 8));
    let mut clear = [0u8; 2];
    set_range(&mut clear, 3, 8, true);
    ask(&rt, 5, clear == [0xf8, 0x07]);
}

// The first bit, the count and the value of each run.
static RUNS: [(usize, usize, bool); 5] = [
    (1, 2, false),
    (3, 8, true),
    (11, 5, false),
    (16, 8, true),
    (24, 7, false),
];

#[test]
fn runs_are_maximal(rt: HostRuntime) {
    let mut found = runs(&[0xf8, 0x07, 0xff, 0], 1, 30);
    for (row, (first, count, set)) in RUNS.iter().enumerate() {
        let wanted = Run {
            first: *first,
            count: *count,
            set: *set,
        };
        ask(&rt, row, found.next() == Some(wanted));
    }
    ask(&rt, 5, found.next().is_none());
}
