//! The two copies of the header, and the two of the region table.

use crate::asking::{are_bytes, ask, given, zeros};
use header_pair::{HeaderRefusal, read_headers};
use region_table::{RegionRefusal, Regions};
use std::process::Abort;
use vx_base::{Guid, Header};

fn header(number: u64) -> Header {
    Header {
        copy: 0,
        number,
        file_write: Guid::from_bytes([1; 16]),
        data_write: Guid::from_bytes([2; 16]),
        log: Guid::zero(),
        log_version: 0,
        version: 1,
        log_len: 1_048_576,
        log_at: 1_048_576,
    }
}

// Asks which copy is current: the question of this number.
fn ask_current<R: Abort>(rt: &R, question: usize, zone: &[u8], copy: u32, number: u64) {
    assert!(rt; zone.len() == 196_608);
    let current = given(rt, read_headers(zone, 4_194_304));
    ask(rt, question, current.copy == copy);
    ask(rt, question, current.number == number);
    ask(
        rt,
        question,
        current.data_write == Guid::from_bytes([2; 16]),
    );
}

#[test]
fn the_valid_copy_with_the_greater_number_is_current(rt: HostRuntime) {
    let mut zone = zeros(&rt, rt.alloc(), 196_608);
    let none = read_headers(zone.as_slice(), 4_194_304);
    ask(&rt, 1, none == Err(HeaderRefusal::NoHeader));
    header_pair::build(&mut zone[65_536..69_632], &header(7));
    header_pair::build(&mut zone[131_072..135_168], &header(6));
    ask_current(&rt, 2, zone.as_slice(), 1, 7);
    // a wrong checksum
    zone[65_540] ^= 1;
    ask_current(&rt, 3, zone.as_slice(), 2, 6);
}

const REGIONS: Regions = Regions {
    bat_at: 3_145_728,
    bat_len: 1_048_576,
    meta_at: 2_097_152,
    meta_len: 1_048_576,
};

#[test]
fn the_first_valid_region_table_is_read(rt: HostRuntime) {
    let mut copies = zeros(&rt, rt.alloc(), 131_072);
    let none = region_table::parse(copies.as_slice(), 4_194_304, 1_048_576, 1_048_576);
    ask(&rt, 1, none == Err(RegionRefusal::NoRegionTable));
    region_table::build(&mut copies[65_536..], &REGIONS);
    let read = region_table::parse(copies.as_slice(), 4_194_304, 1_048_576, 1_048_576);
    ask(&rt, 2, read == Ok(REGIONS));
    let bat = are_bytes(&copies[65_552..65_556], &[0x66, 0x77, 0xC2, 0x2D]);
    ask(&rt, 3, bat);
}
