//! Files that break a rule of opening: what `check` finds, and that `repair` refuses them by the first of it. Neither changes the file.

use crate::common::{CHECK, REPAIR, ask_run};
use crate::files::{CHILD, DYNAMIC, FIXED, LARGER, LOG, Patch, changed, file_of};
use std::alloc::Global;
use std::process::Abort;
use std::sync::Wait;
use std::thread::Threads;
use vhdx_app::Status;

// What is written over a file, the first rule that it breaks then, and the lines of what else is found.
type Row = (&'static [Patch], &'static str, &'static str);

// Asks that this is found in the file, and refuses its repair.
fn ask_refused<R: Abort + Threads + Wait + Sync>(
    rt: &R,
    alloc: Global,
    file: &[u8],
    refusal: &str,
    rest: &str,
) {
    let found = format!(in alloc; "finding {refusal}\n{rest}").expect(rt, "no memory");
    ask_run(rt, alloc, CHECK, file, Status::Findings, &found, file);
    let refused = format!(in alloc; "refused {refusal}\n").expect(rt, "no memory");
    ask_run(rt, alloc, REPAIR, file, Status::Refused, &refused, file);
}

// The same of each row over a whole file.
fn each_refused<R: Abort + Threads + Wait + Sync>(
    rt: &R,
    alloc: Global,
    whole: &[u8],
    rows: &[Row],
) {
    for (patches, refusal, rest) in rows {
        let file = changed(rt, alloc, whole, patches);
        ask_refused(rt, alloc, &file, refusal, rest);
    }
}

// How many bytes of the fixed file are left, and the rule that they break.
static CUTS: [(usize, &str); 8] = [
    (0, "1 NotVhdx f.vhdx"),
    (7, "1 NotVhdx f.vhdx"),
    (8, "2 TooShort f.vhdx length 8"),
    (1_048_575, "2 TooShort f.vhdx length 1048575"),
    (
        1_048_576,
        "5 BadLogPlace f.vhdx offset 1048576 length 1048576",
    ),
    (
        2_097_151,
        "5 BadLogPlace f.vhdx offset 1048576 length 1048576",
    ),
    (4_194_303, "9 RegionPlace f.vhdx bat"),
    (6_291_455, "16 BlockPlace f.vhdx index 1"),
];

#[test]
fn cut_files(rt: HostRuntime) {
    let whole = file_of(&rt, rt.alloc(), FIXED);
    for (len, refusal) in &CUTS {
        let file = whole.get(..*len).expect(&rt, "a short file");
        ask_refused(&rt, rt.alloc(), file, refusal, "");
    }
}

// A field of header copy 2 stands at 131,072 + its place; the region table in use is the first, its entries at 196,624 (block allocation
// table) and 196,656 (metadata).
static HEADS: [Row; 16] = [
    (&[(7, b"y")], "1 NotVhdx f.vhdx", ""),
    (
        &[(65_536, b"H"), (131_076, b"\0\0\0\0")],
        "3 NoHeader f.vhdx",
        "finding 28 HeaderCopy f.vhdx copy 1\nfinding 28 HeaderCopy f.vhdx copy 2\n",
    ),
    (
        &[(131_138, &[2])],
        "4 BadVersion f.vhdx version 2 log 0",
        "",
    ),
    (
        &[(131_120, &[1]), (131_136, &[1])],
        "4 BadVersion f.vhdx version 1 log 1",
        "finding 30 LogNamed f.vhdx\n",
    ),
    (
        &[(131_144, &[0, 0, 0x18])],
        "5 BadLogPlace f.vhdx offset 1572864 length 1048576",
        "",
    ),
    (
        &[(131_140, &[0, 0, 0])],
        "5 BadLogPlace f.vhdx offset 1048576 length 0",
        "",
    ),
    (
        &[(196_612, b"\0\0\0\0"), (262_144, b"R")],
        "6 NoRegionTable f.vhdx",
        "finding 29 RegionCopy f.vhdx copy 1\nfinding 29 RegionCopy f.vhdx copy 2\n",
    ),
    (
        &[(196_616, &[3]), (196_688, &[0, 0, 0, 1]), (196_716, &[1])],
        "7 UnknownRegion f.vhdx id {01000000-0000-0000-0000-000000000000}",
        "",
    ),
    (
        &[(196_624, &[0]), (196_652, &[0])],
        "8 MissingRegion f.vhdx bat",
        "",
    ),
    (
        &[(196_656, &[0]), (196_684, &[0])],
        "8 MissingRegion f.vhdx metadata",
        "",
    ),
    (&[(196_642, &[0x10])], "9 RegionPlace f.vhdx bat", ""),
    (&[(196_642, &[0x20])], "9 RegionPlace f.vhdx bat", ""),
    (&[(196_674, &[0x50])], "9 RegionPlace f.vhdx metadata", ""),
    (
        &[(196_674, &[0x38]), (196_682, &[0])],
        "9 RegionPlace f.vhdx metadata",
        "",
    ),
    // the identifier of the table's region a second time
    (
        &[
            (196_616, &[3]),
            (
                196_688,
                b"\x66\x77\xC2\x2D\x23\xF6\x00\x42\x9D\x64\x11\x5E\x9B\xFD\x4A\x08",
            ),
        ],
        "9 RegionPlace f.vhdx bat",
        "",
    ),
    // also a version and a place of the log that are wrong, a copy of each that isn't valid, and a log that is named
    (
        &[
            (65_536, b"H"),
            (131_120, &[1]),
            (131_138, &[2]),
            (131_144, &[0, 0, 0x18]),
            (262_144, b"R"),
        ],
        "4 BadVersion f.vhdx version 2 log 0",
        "finding 28 HeaderCopy f.vhdx copy 1\nfinding 29 RegionCopy f.vhdx copy 2\nfinding 30 LogNamed f.vhdx\n",
    ),
];

// The metadata table stands at 2,097,152, its entries of 32 bytes from 2,097,184 on, the items from 2,162,688 on: file parameters, size,
// identifier, logical and physical sector.
static METADATA: [Row; 17] = [
    (
        &[(2_097_152, b"M")],
        "10 BadMetadataTable f.vhdx entry 0",
        "",
    ),
    (
        &[(2_097_163, &[8])],
        "10 BadMetadataTable f.vhdx entry 0",
        "",
    ),
    (
        &[(2_097_202, &[0])],
        "10 BadMetadataTable f.vhdx entry 1",
        "",
    ),
    (
        &[(2_097_232, &[4])],
        "10 BadMetadataTable f.vhdx entry 1",
        "",
    ),
    (
        &[(2_097_239, &[1])],
        "10 BadMetadataTable f.vhdx entry 2",
        "",
    ),
    (
        &[(2_097_184, &[0])],
        "11 UnknownItem f.vhdx id {caa16700-fa36-4d43-b3b6-33f0aa44e76b}",
        "",
    ),
    (
        &[(2_097_184, &[0]), (2_097_208, &[0])],
        "12 MissingItem f.vhdx id {caa16737-fa36-4d43-b3b6-33f0aa44e76b}",
        "",
    ),
    (
        &[(2_162_692, &[2])],
        "12 MissingItem f.vhdx id {a8d35f2d-b30b-454d-abf7-d3d84834ab0c}",
        "",
    ),
    (
        &[(2_162_690, &[0x30])],
        "13 BadItem f.vhdx id {caa16737-fa36-4d43-b3b6-33f0aa44e76b}",
        "",
    ),
    (
        &[(2_162_696, &[1])],
        "13 BadItem f.vhdx id {2fa54224-cd1b-4876-b211-5dbed83bf4b8}",
        "",
    ),
    (
        &[(2_162_701, &[1])],
        "13 BadItem f.vhdx id {2fa54224-cd1b-4876-b211-5dbed83bf4b8}",
        "",
    ),
    (
        &[(2_162_720, &[1])],
        "13 BadItem f.vhdx id {8141bf1d-a96f-4709-ba47-f233a8faab5f}",
        "",
    ),
    (
        &[(2_162_720, &[0, 0x10])],
        "26 SectorSize f.vhdx sector 4096",
        "",
    ),
    // the identifier of the first item a second time; a retired leaf's name that is none
    (
        &[(
            2_097_216,
            b"\x37\x67\xA1\xCA\x36\xFA\x43\x4D\xB3\xB6\x33\xF0\xAA\x44\xE7\x6B",
        )],
        "10 BadMetadataTable f.vhdx entry 1",
        "",
    ),
    (
        &[
            (2_097_162, &[6]),
            (
                2_097_344,
                b"\x52\x0A\x3F\x7D\x1B\x6C\x0E\x4E\x9B\x1A\x2F\x4C\x8E\x6D\x9A\x31\x28\x00\x01\x00\x02\x00\x00\x00\x01",
            ),
            (2_162_728, b"/"),
        ],
        "13 BadItem f.vhdx id {7d3f0a52-6c1b-4e0e-9b1a-2f4c8e6d9a31}",
        "",
    ),
    // also entries of the block allocation table, which aren't looked at then, and a copy of the header
    (
        &[
            (2_162_720, &[0, 0x10]),
            (3_145_728, &[4]),
            (3_145_736, &[6]),
        ],
        "26 SectorSize f.vhdx sector 4096",
        "",
    ),
    (
        &[(65_536, b"H"), (2_097_152, b"M"), (3_145_728, &[4])],
        "10 BadMetadataTable f.vhdx entry 0",
        "finding 28 HeaderCopy f.vhdx copy 1\n",
    ),
];

// A file that was 5 MB long when the log's entry was written.
static TRUNCATED: [Row; 2] = [
    (
        &[(1_048_626, &[0x50])],
        "14 TruncatedBelowLog f.vhdx wanted 5242880 found 4194304",
        "finding 30 LogNamed f.vhdx\n",
    ),
    (
        &[(1_048_626, &[0x50]), (196_608, b"R"), (262_144, b"R")],
        "14 TruncatedBelowLog f.vhdx wanted 5242880 found 4194304",
        "finding 29 RegionCopy f.vhdx copy 1\nfinding 29 RegionCopy f.vhdx copy 2\nfinding 30 LogNamed f.vhdx\n",
    ),
];

#[test]
fn unread_files(rt: HostRuntime) {
    let alloc = rt.alloc();
    let whole = file_of(&rt, alloc, DYNAMIC);
    each_refused(&rt, alloc, &whole, &HEADS);
    each_refused(&rt, alloc, &whole, &METADATA);
    let logged = changed(&rt, alloc, &whole, &LOG);
    each_refused(&rt, alloc, &logged, &TRUNCATED);
}

// The entry of block I stands at 3,145,728 + 8 I.
static BLOCKS: [Row; 11] = [
    (&[(3_145_728, &[4])], "15 BadBatState f.vhdx index 0", ""),
    (&[(3_145_736, &[5])], "15 BadBatState f.vhdx index 1", ""),
    (
        &[(3_145_728, &[6, 0, 0]), (3_145_736, &[7])],
        "15 BadBatState f.vhdx index 1",
        "finding 16 BlockPlace f.vhdx index 0\n",
    ),
    (&[(3_145_730, &[0])], "16 BlockPlace f.vhdx index 0", ""),
    (&[(3_145_738, &[0x10])], "16 BlockPlace f.vhdx index 1", ""),
    (&[(3_145_738, &[0x20])], "16 BlockPlace f.vhdx index 1", ""),
    (&[(3_145_738, &[0x30])], "16 BlockPlace f.vhdx index 1", ""),
    (&[(3_145_738, &[0x60])], "16 BlockPlace f.vhdx index 1", ""),
    (&[(3_145_743, &[0xFF])], "16 BlockPlace f.vhdx index 1", ""),
    (
        &[(3_145_730, &[0]), (3_145_738, &[0])],
        "16 BlockPlace f.vhdx index 0",
        "finding 16 BlockPlace f.vhdx index 1\nfinding 17 BlockOverlap f.vhdx index 0 and 1\n",
    ),
    (
        &[(3_145_738, &[0x40])],
        "17 BlockOverlap f.vhdx index 0 and 1",
        "",
    ),
];

// Blocks of two units, of which one is the same.
static HALVES: [Row; 1] = [(
    &[
        (3_145_728, &[6, 0, 0x50]),
        (3_145_736, &[6, 0, 0x40]),
        (8_388_607, &[0]),
    ],
    "17 BlockOverlap f.vhdx index 0 and 1",
    "",
)];

// The entry of the sector bitmap stands at 3,178,496.
static BITMAPS: [Row; 6] = [
    (
        &[(3_145_728, &[7, 0, 0x40]), (5_242_879, &[0])],
        "18 BitmapMissing f.vhdx index 0",
        "",
    ),
    (
        &[(3_145_728, &[4]), (3_145_736, &[5]), (3_178_496, &[3])],
        "15 BadBatState f.vhdx index 0",
        "finding 15 BadBatState f.vhdx index 1\nfinding 15 BadBatState f.vhdx index 4096\n",
    ),
    (
        &[
            (3_145_744, &[6]),
            (3_145_752, &[7, 0, 0x30]),
            (3_178_496, &[6, 0, 0x10]),
        ],
        "16 BlockPlace f.vhdx index 2",
        "finding 16 BlockPlace f.vhdx index 3\nfinding 16 BlockPlace f.vhdx index 4096\n",
    ),
    (
        &[
            (3_145_760, &[6, 0, 0x40]),
            (3_145_768, &[6, 0, 0x40]),
            (3_145_776, &[7, 0, 0x40]),
            (3_145_784, &[6, 0, 0x50]),
            (3_178_496, &[6, 0, 0x50]),
            (6_291_455, &[0]),
        ],
        "17 BlockOverlap f.vhdx index 4 and 5",
        "finding 17 BlockOverlap f.vhdx index 4 and 6\nfinding 17 BlockOverlap f.vhdx index 5 and 6\nfinding 17 BlockOverlap f.vhdx index 7 and 4096\n",
    ),
    (
        &[
            (3_145_792, &[7, 0, 0x60]),
            (3_145_800, &[7, 0, 0x70]),
            (8_388_607, &[0]),
        ],
        "18 BitmapMissing f.vhdx index 8",
        "finding 18 BitmapMissing f.vhdx index 9\n",
    ),
    // all of these, an odd length in the locator, a copy of each that isn't valid, and a log that is named
    (
        &[
            (65_536, b"H"),
            (131_120, &[1]),
            (262_144, b"R"),
            (2_162_770, &[15]),
            (3_145_728, &[4]),
            (3_145_736, &[5]),
            (3_145_744, &[6]),
            (3_145_752, &[7, 0, 0x30]),
            (3_145_760, &[6, 0, 0x40]),
            (3_145_768, &[6, 0, 0x40]),
            (3_145_776, &[6, 0, 0x40]),
            (3_145_792, &[7, 0, 0x60]),
            (3_145_800, &[7, 0, 0x70]),
            (8_388_607, &[0]),
        ],
        "15 BadBatState f.vhdx index 0",
        "finding 15 BadBatState f.vhdx index 1\nfinding 16 BlockPlace f.vhdx index 2\nfinding 16 BlockPlace f.vhdx index 3\nfinding 17 BlockOverlap f.vhdx index 4 and 5\nfinding 17 BlockOverlap f.vhdx index 4 and 6\nfinding 17 BlockOverlap f.vhdx index 5 and 6\nfinding 18 BitmapMissing f.vhdx index 3\nfinding 18 BitmapMissing f.vhdx index 8\nfinding 18 BitmapMissing f.vhdx index 9\nfinding 19 BadLocator f.vhdx entry 1\nfinding 20 NoParentName f.vhdx\nfinding 28 HeaderCopy f.vhdx copy 1\nfinding 29 RegionCopy f.vhdx copy 2\nfinding 30 LogNamed f.vhdx\n",
    ),
];

#[test]
fn broken_tables(rt: HostRuntime) {
    let alloc = rt.alloc();
    for (lines, rows) in [
        (FIXED, BLOCKS.as_slice()),
        (LARGER, HALVES.as_slice()),
        (CHILD, BITMAPS.as_slice()),
    ] {
        let whole = file_of(&rt, alloc, lines);
        each_refused(&rt, alloc, &whole, rows);
    }
}
