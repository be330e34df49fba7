//! Marks, stamps and room for pieces of a merge, and the stripes of a disk.

use crate::asking::{ask, done};
use merge_core::{Marks, Piece, Stamps, stripe_count, stripe_range, stripes_touched};
use vx_base::Geometry;

#[test]
fn the_lowest_stripe_without_a_mark_is_missing(rt: HostRuntime) {
    let mut marks = done(&rt, Marks::new(rt.alloc(), 5));
    ask(&rt, 1, marks.missing() == Some(0));
    marks.mark(0);
    marks.mark(2);
    ask(&rt, 2, marks.missing() == Some(1));
    marks.mark(1);
    marks.mark(3);
    marks.mark(4);
    ask(&rt, 3, marks.missing().is_none());
    marks.unmark_range(1, 2);
    ask(&rt, 4, marks.missing() == Some(1));
    marks.mark(1);
    ask(&rt, 5, marks.missing() == Some(2));
    ask(&rt, 6, marks.is_marked(4));
    ask(&rt, 7, !marks.is_marked(2));
    marks.unmark(0);
    ask(&rt, 8, marks.missing() == Some(0));
}

#[test]
fn stamps_are_set_in_ranges(rt: HostRuntime) {
    let mut stamps = done(&rt, Stamps::new(rt.alloc(), 4));
    ask(&rt, 1, stamps.get(3) == 0);
    stamps.set_range(1, 2, 7);
    ask(&rt, 2, stamps.get(0) == 0);
    ask(&rt, 3, stamps.get(1) == 7);
    ask(&rt, 4, stamps.get(2) == 7);
    ask(&rt, 5, stamps.get(3) == 0);
}

#[test]
fn a_piece_is_empty_at_first(rt: HostRuntime) {
    let piece = done(&rt, Piece::new(rt.alloc()));
    ask(&rt, 1, !piece.is_filled());
}

const SMALL: Geometry = Geometry {
    sector: 512,
    sectors: 4_097,
};

const LARGE: Geometry = Geometry {
    sector: 4_096,
    sectors: 512,
};

#[test]
fn the_last_stripe_may_be_shorter(rt: HostRuntime) {
    ask(&rt, 1, stripe_count(SMALL) == 3);
    ask(&rt, 2, stripe_range(1, SMALL) == (2_048, 2_048));
    ask(&rt, 3, stripe_range(2, SMALL) == (4_096, 1));
    ask(&rt, 4, stripes_touched(2_047, 2, SMALL) == (0, 1));
    ask(&rt, 5, stripe_count(LARGE) == 2);
    ask(&rt, 6, stripe_range(1, LARGE) == (256, 256));
}
