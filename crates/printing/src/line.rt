//! Lines that are printed without taking memory.

ghost use Rattle.std.specs.Prelude.{◌≡◌, ◌≤◌, ◌<◌, ◌+◌, ◌*◌, ◌^◌, ◌++◌, ℕ, codes, drop, length, take, decimal, IfErr, OnOk, OnErr};
ghost use Rattle.std.specs.Io.KnownBytes.{Appends};
ghost use Rattle.store_model.specs.Cause.{Rose};
ghost use Rattle.printing.specs.Answers as spec;
ghost use Rattle.printing.specs.Answers.{IsGiven};

use crate::print::send;
use store_model::{Sink, SinkFault};

/// Bytes of a sector.
const SECTOR: usize = 512;

/// Bytes of a line behind its number: a space, two digits for each byte, and the line's end.
const BYTES_LEN: usize = 1_026;

/// Bytes of the longest line, whose number has 20 digits.
const LINE_LEN: usize = 1_046;

/// Bytes of a page of lines, which is sent at once.
pub const PAGE_LEN: usize = 65_536;

/// So many lines have room in a page, whatever their numbers.
const PAGE_LINES: u64 = 62;

/// Bytes of the longest line that tells a name alone, of 255 bytes.
const NAMED_LEN: usize = 265;

/// Bytes of the longest line that tells a name, of 255 bytes, and a number, of 20 digits.
const TOLD_LEN: usize = 283;

// Writes a number's decimal digits, and gives how many they are.
fn write_decimal(out: &mut [u8], number: u64) -> usize
    requires { length (decimal number) ≤ length out.old }
    ensures len { result ≡ length (decimal number) }
    ensures digits { out.new ≡ decimal number ++ drop result out.old }
{
    if number < 10 {
        out[0] = b'0' + number as u8;
        return 1;
    }
    let len = write_decimal(out, number / 10);
    out[len] = b'0' + (number % 10) as u8;
    len + 1
}

// Writes what stands behind a sector's number: a space, the bytes in hexadecimal digits, and the line's end.
#[tactic(auto, using(crate::proofs::Lines::one_set))]
fn write_bytes(out: &mut [u8], sector: &[u8])
    requires sector { length sector.now ≡ 512 }
    requires out { length out.old ≡ 1026 }
    ensures { out.new ≡ spec.sector_bytes sector.now }
{
    let (space, rest) = out.split_at_mut(1);
    let (digits, end) = rest.split_at_mut(2 * SECTOR);
    space[0] = b' ';
    let Ok(()) = hex::encode_to_slice(sector, digits) else {
        unreachable!()
    };
    end[0] = b'\n';
}

// Writes a sector's line, and gives its length.
fn write_line(line: &mut [u8], number: u64, sector: &[u8]) -> usize
    requires sector { length sector.now ≡ 512 }
    requires room { length line.old ≡ 1046 }
    ensures inside { result ≤ 1046 }
    ensures same { length line.new ≡ 1046 }
    ensures line { take result line.new ≡ spec.sector_line number sector.now }
{
    let digits = write_decimal(line, number);
    let (_, behind) = line.split_at_mut(digits);
    let (bytes, _) = behind.split_at_mut(BYTES_LEN);
    write_bytes(bytes, sector);
    digits + BYTES_LEN
}

// Writes a number and the line's end, and gives how many bytes these are.
fn write_end(out: &mut [u8], number: u64) -> usize
    requires { 21 ≤ length out.old }
    ensures few { result ≤ 21 }
    ensures end { take result out.new ≡ decimal number ++ codes "\n" }
{
    let digits = write_decimal(out, number);
    out[digits] = b'\n';
    digits + 1
}

// Writes a line of what it tells, of which thing, and a number, and gives its length.
fn write_told(line: &mut [u8], told: &[u8], name: &[u8], number: u64) -> usize
    requires told { length told.now ≤ 6 }
    requires name { length name.now ≤ 255 }
    requires room { length line.old ≡ 283 }
    ensures inside { result ≤ 283 }
    ensures line { take result line.new ≡ told.now ++ name.now ++ codes " " ++ decimal number ++ codes "\n" }
{
    let (head, behind) = line.split_at_mut(told.len());
    head.copy_from_slice(told);
    let (named, rest) = behind.split_at_mut(name.len());
    named.copy_from_slice(name);
    let (space, end) = rest.split_at_mut(1);
    space[0] = b' ';
    told.len() + name.len() + 1 + write_end(end, number)
}

// Writes a line of what it tells, and of which thing, and gives its length.
fn write_named(line: &mut [u8], told: &[u8], name: &[u8]) -> usize
    requires told { length told.now ≤ 9 }
    requires name { length name.now ≤ 255 }
    requires room { length line.old ≡ 265 }
    ensures inside { result ≤ 265 }
    ensures line { take result line.new ≡ told.now ++ name.now ++ codes "\n" }
{
    let (head, behind) = line.split_at_mut(told.len());
    head.copy_from_slice(told);
    let (named, rest) = behind.split_at_mut(name.len());
    named.copy_from_slice(name);
    let (end, _) = rest.split_at_mut(1);
    end[0] = b'\n';
    told.len() + name.len() + 1
}

/// Prints a line of what it tells, and of which thing. It takes no memory.
pub fn send_named<K: Sink>(out: &mut K, told: &[u8], name: &[u8]) -> Result<(), SinkFault>
    requires told { length told.now ≤ 9 }
    requires name { length name.now ≤ 255 }
    ensures ok { OnOk result (Appends (K.written out.old) (K.written out.new) (told.now ++ name.now ++ codes "\n")) }
    ensures cut { OnErr result ((n : ℕ) × Appends (K.written out.old) (K.written out.new) (take n (told.now ++ name.now ++ codes "\n"))) }
    ensures quiet { OnOk result (K.faults out.new ≡ K.faults out.old) }
    ensures told { IfErr result (λ fault. fault.count ≡ K.faults out.new) }
    ensures rose { OnErr result (Rose (K.faults out.old) (K.faults out.new)) }
{
    let mut line = [0; NAMED_LEN];
    let len = write_named(&mut line, told, name);
    send(out, &line[..len])
}

/// Prints a line of what it tells, of which thing, and a number. It takes no memory.
pub fn send_told<K: Sink>(
    out: &mut K,
    told: &[u8],
    name: &[u8],
    number: u64,
) -> Result<(), SinkFault>
    requires told { length told.now ≤ 6 }
    requires name { length name.now ≤ 255 }
    ensures ok { OnOk result (Appends (K.written out.old) (K.written out.new) (told.now ++ name.now ++ codes " " ++ decimal number ++ codes "\n")) }
    ensures cut { OnErr result ((n : ℕ) × Appends (K.written out.old) (K.written out.new)
        (take n (told.now ++ name.now ++ codes " " ++ decimal number ++ codes "\n"))) }
    ensures quiet { OnOk result (K.faults out.new ≡ K.faults out.old) }
    ensures told { IfErr result (λ fault. fault.count ≡ K.faults out.new) }
    ensures rose { OnErr result (Rose (K.faults out.old) (K.faults out.new)) }
{
    let mut line = [0; TOLD_LEN];
    let len = write_told(&mut line, told, name, number);
    send(out, &line[..len])
}

// Writes a sector's line behind what the page has, and gives how much of it is filled then.
fn add_line(page: &mut [u8], filled: usize, number: u64, sector: &[u8]) -> usize
    requires sector { length sector.now ≡ 512 }
    requires room { filled + 1046 ≤ length page.old }
    ensures same { length page.new ≡ length page.old }
    ensures inside { result ≤ filled + 1046 }
    ensures line { take result page.new ≡ take filled page.old ++ spec.sector_line number sector.now }
{
    filled + write_line(&mut page[filled..filled + LINE_LEN], number, sector)
}

// Writes the lines of the first sectors of those whose bytes are given, and gives how many bytes these lines have.
fn write_lines(page: &mut [u8], first: u64, count: u64, sectors: &[u8]) -> usize
    requires few { count ≤ 62 }
    requires page { length page.old ≡ 65536 }
    requires there { 512 * count ≤ length sectors.now }
    requires end { first + count < 2 ^ 64 }
    ensures same { length page.new ≡ 65536 }
    ensures inside { result ≤ 65536 }
    ensures lines { take result page.new ≡ spec.sector_lines 512 first sectors.now count }
{
    let mut filled = 0;
    let mut rest = sectors;
    for number in first..first + count {
        let (sector, behind) = rest.split_at(SECTOR);
        filled = add_line(page, filled, number, sector);
        rest = behind;
    }
    filled
}

/// Prints a line for each of the sectors from `first` on, whose bytes stand one behind the other, by pages of 64 KB. After a
/// fault a part from the beginning of these lines was written, and the sink's count rose. It takes no memory.
pub fn send_sectors<K: Sink>(
    out: &mut K,
    page: &mut [u8],
    first: u64,
    count: u64,
    sectors: &[u8],
) -> Result<(), SinkFault>
    requires page { length page.old ≡ 65536 }
    requires given { IsGiven first count sectors.now }
    ensures ok { OnOk result (Appends (K.written out.old) (K.written out.new) (spec.sector_lines 512 first sectors.now count)) }
    ensures cut { OnErr result ((n : ℕ) × Appends (K.written out.old) (K.written out.new) (take n (spec.sector_lines 512 first sectors.now count))) }
    ensures quiet { OnOk result (K.faults out.new ≡ K.faults out.old) }
    ensures told { IfErr result (λ fault. fault.count ≡ K.faults out.new) }
    ensures rose { OnErr result (Rose (K.faults out.old) (K.faults out.new)) }
{
    let mut rest = sectors;
    let mut number = first;
    let mut left = count;
    while left > 0 {
        let lines = left.min(PAGE_LINES);
        let (_, behind) = rest.split_at(SECTOR * lines as usize);
        let len = write_lines(page, number, lines, rest);
        send(out, &page[..len])?;
        rest = behind;
        number += lines;
        left -= lines;
    }
    Ok(())
}
