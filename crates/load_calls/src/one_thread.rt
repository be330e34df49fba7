//! A load on one thread, to which every other order of its calls can be held. Of each sector the first byte alone is kept.

ghost use Rattle.std.specs.Prelude.{◌≡◌, ◌≤◌, ◌<◌, ◌^◌, ◌+◌, ◌-◌, ◌*◌, ℕ, IfOk, OnOk, drop, length, min, slice_index, string_bytes, sum, take};
ghost use Rattle.guest_model.specs.Calls.{Disk, apply, reply};
ghost use Rattle.load_calls.specs.Load.{call_of, new_disk, prepared_disk, sector_size, with_writes};
ghost use Rattle.load_calls.specs.OneThread.{AreFirsts, Leaves, weighed_firsts};
ghost use Rattle.load_calls.specs.Printed.{disk_sum, load_text, seen_in};

use crate::calls::{load_lines, preparing_lines};
use crate::text::{counts_of, lines_text};
use script::{Form, Line};
use std::alloc::{AllocError, Global};
use vx_base::zeroed;

/// How many sectors the disk has (profile).
const SECTORS: usize = 131_072;

// Where `count` of `len` sectors end that begin at the first one of them.
fn end_of(len: usize, first: u64, count: u64) -> usize
    ensures { result ≡ min (first + count) len }
{
    first.saturating_add(count).min(len as u64) as usize
}

// Makes `count` bytes from `first` on this one, as far as there are so many.
fn fill(firsts: &mut [u8], first: u64, count: u64, byte: u8)
    ensures len { length firsts.new ≡ length firsts.old }
    ensures filled { (k : ℕ) → first ≤ k → k < first + count → k < length firsts.old → slice_index firsts.new k ≡ byte }
    ensures before { (k : ℕ) → k < first → slice_index firsts.new k ≡ slice_index firsts.old k }
    ensures behind { (k : ℕ) → first + count ≤ k → slice_index firsts.new k ≡ slice_index firsts.old k }
{
    let end = end_of(firsts.len(), first, count);
    for k in (first as usize).min(end)..end {
        firsts[k] = byte;
    }
}

// The sum of bytes.
fn sum_of(bytes: &[u8]) -> u64
    requires { length bytes.now ≤ 2 ^ 17 }
    ensures sum { result ≡ sum bytes.now }
    ensures most { result ≤ 2 ^ 25 }
{
    let mut sum = 0;
    for byte in bytes {
        sum += *byte as u64;
    }
    sum
}

// The bytes from `first` on, `count` of them, as far as there are so many.
fn part_of(firsts: &[u8], first: u64, count: u64) -> &[u8]
    ensures part { result.now ≡ take count (drop first firsts.now) }
    ensures few { length result.now ≤ length firsts.now }
{
    let end = end_of(firsts.len(), first, count);
    &firsts[(first as usize).min(end)..end]
}

// Makes a call, and tells the sum of what it read.
#[tactic(auto, using(crate::proofs::Firsts::saw))]
fn call(firsts: &mut [u8], form: Form) -> u64
    requires { length firsts.old ≤ 2 ^ 17 }
    ensures len { length firsts.new ≡ length firsts.old }
    ensures left { (disk : Disk) → AreFirsts firsts.old disk → AreFirsts firsts.new (apply sector_size disk (call_of form)) }
    ensures saw { (disk : Disk) → AreFirsts firsts.old disk → result ≡ seen_in (reply disk (call_of form)) }
    ensures most { result ≤ 2 ^ 25 }
{
    match form {
        Form::Write { first, count, byte } => fill(firsts, first, count, byte),
        Form::Trim { first, count } => fill(firsts, first, count, 0),
        Form::Read { first, count } => return sum_of(part_of(firsts, first, count)),
        Form::Flush | Form::Fetch { .. } | Form::Put | Form::Copy | Form::Finish => {}
    }
    0
}

// Makes the calls of lines, and tells the sum of what they read.
fn run(firsts: &mut [u8], lines: &[Line]) -> u64
    requires few { length firsts.old ≤ 2 ^ 17 }
    requires short { length lines.now ≤ 2 ^ 20 }
    ensures len { length firsts.new ≡ length firsts.old }
    ensures left { (disk : Disk) → AreFirsts firsts.old disk → Leaves lines.now firsts.new result disk }
{
    let mut seen = 0;
    for line in lines {
        seen += call(firsts, line.form);
    }
    seen
}

// The sum of bytes, each times its place, counted from 1.
#[tactic(auto, using(crate::proofs::Firsts::no_weight, crate::proofs::Firsts::more_weight, crate::proofs::Firsts::weight_fits, crate::proofs::Firsts::disk_weight))]
fn weighed(firsts: &[u8]) -> u64
    requires { length firsts.now ≤ 2 ^ 17 }
    ensures { (disk : Disk) → AreFirsts firsts.now disk → result ≡ disk_sum disk }
{
    let mut sum = 0;
    for k in 0..firsts.len() {
        sum += (k as u64 + 1) * firsts[k] as u64;
    }
    sum
}

// The first bytes of a new disk.
#[tactic(auto, using(crate::proofs::Prepared::new_firsts))]
fn new_firsts(alloc: Global) -> Result<Vec<u8>, AllocError>
    ensures are { IfOk result (λ firsts. AreFirsts firsts.items new_disk) }
    ensures count { IfOk result (λ firsts. length firsts.items ≡ 131072) }
{
    zeroed(alloc, SECTORS)
}

// Makes the writes to a file.
#[tactic(auto, using(crate::proofs::Prepared::few_preparing))]
fn prepare(alloc: Global, firsts: &mut [u8], seed: u32, file: u32) -> Result<(), AllocError>
    requires file { file < 4 }
    requires few { length firsts.old ≤ 2 ^ 17 }
    ensures len { length firsts.new ≡ length firsts.old }
    ensures left { OnOk result ((disk : Disk) → AreFirsts firsts.old disk → AreFirsts firsts.new (with_writes seed file disk)) }
{
    let lines = preparing_lines(alloc, seed, file)?;
    run(firsts, lines.as_slice());
    Ok(())
}

// The first bytes of the disk that the guests find.
fn prepared_firsts(alloc: Global, seed: u32) -> Result<Vec<u8>, AllocError>
    ensures are { IfOk result (λ firsts. AreFirsts firsts.items (prepared_disk seed)) }
    ensures count { IfOk result (λ firsts. length firsts.items ≡ 131072) }
{
    let mut firsts = new_firsts(alloc)?;
    prepare(alloc, firsts.as_mut_slice(), seed, 0)?;
    prepare(alloc, firsts.as_mut_slice(), seed, 1)?;
    prepare(alloc, firsts.as_mut_slice(), seed, 2)?;
    prepare(alloc, firsts.as_mut_slice(), seed, 3)?;
    Ok(firsts)
}

// What is printed behind the guests' calls.
#[tactic(auto, using(crate::proofs::Prepared::few_lines))]
fn text_behind(alloc: Global, seed: u32, firsts: &mut [u8]) -> Result<String, AllocError>
    requires few { length firsts.old ≤ 2 ^ 17 }
    requires prepared { AreFirsts firsts.old (prepared_disk seed) }
    ensures { IfOk result (λ text. string_bytes text ≡ load_text seed) }
{
    let lines = load_lines(alloc, seed)?;
    let seen = run(firsts, lines.as_slice());
    let disk = weighed(firsts);
    lines_text(alloc, counts_of(lines.as_slice()), disk, seen)
}

/// What a load of this seed prints, by its calls guest after guest. The `Err` is want of memory.
pub fn one_thread_text(alloc: Global, seed: u32) -> Result<String, AllocError>
    ensures { IfOk result (λ text. string_bytes text ≡ load_text seed) }
{
    let mut firsts = prepared_firsts(alloc, seed)?;
    text_behind(alloc, seed, firsts.as_mut_slice())
}
