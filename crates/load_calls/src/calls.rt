//! The calls of a load, as lines of scripts.

ghost use Rattle.std.specs.Prelude.{◌≡◌, ◌∷◌, ◌++◌, ◌<◌, ◌≤◌, [], IfOk, OnOk};
ghost use Rattle.load_calls.specs.Load.{byte_by, call_by, calls_of, sectors_by, lines_of, load_lines, preparing_lines, write_by, writes_to};

use crate::draws::Draws;
use script::{Form, Line, Script};
use std::alloc::{AllocError, Global};
use vx_base::List;

/// How many files are written before the guests are run (profile).
const FILES: u32 = 4;

/// How many writes go to each of them (profile).
const WRITES: u32 = 32;

/// How many guests there are (profile).
const GUESTS: u32 = 4;

/// How many calls each of them makes (profile).
const CALLS: u32 = 256;

/// How many sectors are a guest's own (profile).
const OWN_SECTORS: u64 = 32_768;

fn sectors_by(a: u32) -> u64
    ensures { result ≡ sectors_by a }
{
    1 + (a / 8 % 16) as u64
}

fn byte_by(b: u32) -> u8
    ensures { result ≡ byte_by b }
{
    (b / 32_768 % 256) as u8
}

fn write_by(a: u32, b: u32) -> Form
    ensures { result ≡ write_by a b }
{
    Form::Write {
        first: (b % 131_057) as u64,
        count: sectors_by(a),
        byte: byte_by(b),
    }
}

fn call_by(guest: u32, a: u32, b: u32) -> Form
    requires least { 1 ≤ guest }
    requires most { guest ≤ 4 }
    ensures { result ≡ call_by guest a b }
{
    let first = (guest - 1) as u64 * OWN_SECTORS + (b % 32_753) as u64;
    let count = sectors_by(a);
    match a % 8 {
        0..=3 => Form::Write {
            first,
            count,
            byte: byte_by(b),
        },
        4 => Form::Trim { first, count },
        5..=6 => Form::Read { first, count },
        _ => Form::Flush,
    }
}

// Adds the writes to a file.
#[tactic(auto, using(crate::proofs::Rows::lines_none, crate::proofs::Rows::state_two_more, crate::proofs::Rows::one_more_line))]
fn push_writes(lines: &mut Vec<Line>, seed: u32, file: u32) -> Result<(), AllocError>
    requires { file < 4 }
    ensures { OnOk result (lines.new.items ≡ lines.old.items ++ lines_of 1 (writes_to seed file)) }
{
    let mut draws = Draws::behind(seed, 2 * WRITES * file);
    for _ in 0..WRITES {
        let a = draws.next();
        let b = draws.next();
        lines.push(Line {
            guest: 1,
            form: write_by(a, b),
        })?;
    }
    Ok(())
}

// Adds the calls of a guest.
#[tactic(auto, using(crate::proofs::Rows::lines_none, crate::proofs::Rows::state_two_more, crate::proofs::Rows::one_more_line))]
fn push_calls(lines: &mut Vec<Line>, seed: u32, guest: u32) -> Result<(), AllocError>
    requires least { 1 ≤ guest }
    requires most { guest ≤ 4 }
    ensures { OnOk result (lines.new.items ≡ lines.old.items ++ lines_of guest (calls_of seed guest)) }
{
    let mut draws = Draws::behind(seed, 2 * (WRITES * FILES + CALLS * (guest - 1)));
    for _ in 0..CALLS {
        let a = draws.next();
        let b = draws.next();
        lines.push(Line {
            guest,
            form: call_by(guest, a, b),
        })?;
    }
    Ok(())
}

/// The lines that are run over a file of a load before the next one is made: 32 writes and a flush, of guest 1. Files are counted from 0. The
/// `Err` is want of memory.
pub fn preparing_lines(alloc: Global, seed: u32, file: u32) -> Result<Script, AllocError>
    requires { file < 4 }
    ensures { IfOk result (λ lines. lines ≡ preparing_lines seed file) }
{
    let mut lines = Vec::new(alloc);
    push_writes(&mut lines, seed, file)?;
    lines.push(Line {
        guest: 1,
        form: Form::Flush,
    })?;
    Ok(List::from_vec(lines))
}

/// The lines of a load's guests, 256 of each of four, guest after guest. The `Err` is want of memory.
pub fn load_lines(alloc: Global, seed: u32) -> Result<Script, AllocError>
    ensures { IfOk result (λ lines. lines ≡ load_lines seed) }
{
    let mut lines = Vec::new(alloc);
    push_calls(&mut lines, seed, 1)?;
    push_calls(&mut lines, seed, 2)?;
    push_calls(&mut lines, seed, 3)?;
    push_calls(&mut lines, seed, 4)?;
    Ok(List::from_vec(lines))
}
