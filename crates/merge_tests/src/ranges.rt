//! Guests that each have a range of a larger disk beside the workers of a merge: behind it each range holds its last writes.

ghost use Rattle.link_rules.specs.Folders.{AllIdle};
ghost use Rattle.mem_store.specs.HostTold.{hosted_by};
ghost use Rattle.store_model.specs.Disk.{WhereTold};

use crate::common::{
    DRAWN, LOOK, ask, ask_at, ask_text, caller_of, empty_host, ids_of, printed, script_done,
    serve_line, text_of,
};
use mem_store::MemHost;
use std::alloc::{AllocError, Global};
use std::process::Abort;
use std::sync::Wait;
use std::thread::Threads;

const GUESTS: u64 = 8;

// Sectors of a guest's range, of four stripes.
const RANGE: u64 = 8_192;

const STRIPES: u64 = 32;

const ROUNDS: u64 = 5;

// Calls of a round.
const CALLS: u64 = 4;

// The byte that a guest writes in a round.
fn byte_of(guest: u64, round: u64) -> u64 {
    round.wrapping_mul(16).wrapping_add(guest)
}

// Where a guest's range begins.
fn start_of(guest: u64) -> u64 {
    guest.wrapping_sub(1).wrapping_mul(RANGE)
}

// The last sector of a stripe of the range, the next of which begins with the sector behind it.
fn edge_of(guest: u64, part: u64) -> u64 {
    let stripes = part.wrapping_add(1).wrapping_mul(2_048);
    start_of(guest).wrapping_add(stripes).wrapping_sub(1)
}

// The words of a call, and what it is told. In odd rounds the first sector of the edge is given back.
fn call_of<R: Abort>(rt: &R, alloc: Global, guest: u64, number: u64) -> String {
    let before = number.wrapping_sub(1);
    let round = before / CALLS;
    let byte = byte_of(guest, round);
    let edge = edge_of(guest, round % 3);
    let own = start_of(guest).wrapping_add(300);
    let text = match before % CALLS {
        0 => format!(in alloc; "write {edge} 2 {byte:02x} = done"),
        1 => format!(in alloc; "write {own} 1 {byte:02x} = done"),
        2 => format!(in alloc; "read {own} 1 = 512*{byte:02x}"),
        _ if round % 2 == 1 => format!(in alloc; "trim {edge} 1 = done"),
        _ => format!(in alloc; "flush = done"),
    };
    text.expect(rt, "no memory")
}

// The words alone.
fn words_of(call: &str) -> &str {
    match call.split(" = ").next() {
        Some(words) => words,
        None => call,
    }
}

// Adds a call of this number of each guest.
fn push_calls<R: Abort>(rt: &R, alloc: Global, script: &mut String, number: u64) {
    for before in 0..GUESTS {
        let guest = before.wrapping_add(1);
        let call = call_of(rt, alloc, guest, number);
        let words = words_of(&call);
        let line = format!(in alloc; "{guest} {words}\n").expect(rt, "no memory");
        script.push_str(&line).expect(rt, "no memory");
    }
}

// The script: a call of each guest in turn.
fn script_of<R: Abort>(rt: &R, alloc: Global) -> String {
    let mut script = String::new(alloc);
    for before in 0..ROUNDS * CALLS {
        push_calls(rt, alloc, &mut script, before.wrapping_add(1));
    }
    script
}

// Asks that each guest is told so, in the order of its calls, and that places are counted from 1.
fn judge<R: Abort>(rt: &R, alloc: Global, text: &str) {
    let mut made = [0u64; 8];
    let mut place = 0u64;
    for line in text.lines() {
        place = place.wrapping_add(1);
        let (guest, number) = caller_of(line).expect(rt, "no caller");
        let slot = guest.checked_sub(1).expect(rt, "guest 0");
        let last = made.get_mut(slot as usize).expect(rt, "another guest");
        *last = last.wrapping_add(1);
        ask_at(rt, *last == number, place);
        let call = call_of(rt, alloc, guest, number);
        let wanted = format!(in alloc; "{place} {guest} {number} {call}");
        let wanted = wanted.expect(rt, "no memory");
        ask(rt, line == wanted.as_str(), line);
    }
    ask_at(rt, place == GUESTS * ROUNDS * CALLS, place);
}

// Adds to the text.
fn push<R: Abort>(rt: &R, text: &mut String, more: Result<String, AllocError>) {
    let more = more.expect(rt, "no memory");
    text.push_str(&more).expect(rt, "no memory");
}

// A script that reads what each range holds, and what it prints: of the first edge round 3 gave a sector back, as round 1 did of the second
// one, which round 4 wrote again.
fn look<R: Abort>(rt: &R, alloc: Global) -> (String, String) {
    let mut script = String::new(alloc);
    let mut told = String::new(alloc);
    let mut place = 0u64;
    for before in 0..GUESTS {
        let guest = before.wrapping_add(1);
        let own = start_of(guest).wrapping_add(300);
        let edge = edge_of(guest, 0);
        let more = format!(in alloc; "read {own} 1\nread {edge} 2\n");
        push(rt, &mut script, more);
        place = place.wrapping_add(1);
        let byte = byte_of(guest, 4);
        let more = format!(in alloc; "{place} read {own} 1 = 512*{byte:02x}\n");
        push(rt, &mut told, more);
        place = place.wrapping_add(1);
        let byte = byte_of(guest, 3);
        let more = format!(in alloc; "{place} read {edge} 2 = 512*00 512*{byte:02x}\n");
        push(rt, &mut told, more);
    }
    (script, told)
}

// The same of the other edges.
fn look_at_edges<R: Abort>(rt: &R, alloc: Global) -> (String, String) {
    let mut script = String::new(alloc);
    let mut told = String::new(alloc);
    let mut place = 0u64;
    for before in 0..GUESTS * 2 {
        place = place.wrapping_add(1);
        let guest = (before / 2).wrapping_add(1);
        let part = (before % 2).wrapping_add(1);
        let edge = edge_of(guest, part);
        // The second edge was last written in round 4, the third in round 2.
        let byte = byte_of(guest, if part == 1 { 4 } else { 2 });
        push(rt, &mut script, format!(in alloc; "read {edge} 2\n"));
        let more = format!(in alloc; "{place} read {edge} 2 = 1024*{byte:02x}\n");
        push(rt, &mut told, more);
    }
    (script, told)
}

// And of what each stripe holds of the files' own.
fn look_at_stripes<R: Abort>(rt: &R, alloc: Global) -> (String, String) {
    let mut script = String::new(alloc);
    let mut told = String::new(alloc);
    let mut place = 0u64;
    for stripe in 0..STRIPES {
        place = place.wrapping_add(1);
        let first = stripe.wrapping_mul(2_048).wrapping_add(100);
        push(rt, &mut script, format!(in alloc; "read {first} 101\n"));
        let more = format!(in alloc; "{place} read {first} 101 = 512*77 50688*00 512*88\n");
        push(rt, &mut told, more);
    }
    (script, told)
}

// A script that writes a sector of each stripe.
fn fill<R: Abort>(rt: &R, alloc: Global, offset: u64, byte: &str) -> String {
    let mut script = String::new(alloc);
    for stripe in 0..STRIPES {
        let first = stripe.wrapping_mul(2_048).wrapping_add(offset);
        let line = format!(in alloc; "write {first} 1 {byte}\n").expect(rt, "no memory");
        script.push_str(&line).expect(rt, "no memory");
    }
    script
}

// The chain. Of each stripe of its disk the middle file holds a sector, and the leaf another one.
fn chain<R: Abort + Threads + Wait + Sync>(rt: &R, alloc: Global) -> MemHost
    ensures { WhereTold (hosted_by result).folder AllIdle }
{
    let mut host = empty_host(alloc);
    let mut ids = ids_of(rt, alloc, &[]);
    let dynamic = "make dynamic a.vhdx --sectors 65536 --block 1";
    script_done(rt, alloc, dynamic, "", &mut host, &mut ids);
    let child = "make child b.vhdx --parent a.vhdx";
    script_done(rt, alloc, child, "", &mut host, &mut ids);
    let script = fill(rt, alloc, 100, "77");
    script_done(rt, alloc, "steps b.vhdx", &script, &mut host, &mut ids);
    let child = "make child c.vhdx --parent b.vhdx";
    script_done(rt, alloc, child, "", &mut host, &mut ids);
    let script = fill(rt, alloc, 200, "88");
    script_done(rt, alloc, "steps c.vhdx", &script, &mut host, &mut ids);
    host
}

// Asks that each range holds its last writes behind a merge by so many workers.
fn ask_ranges<R: Abort + Threads + Wait + Sync>(rt: &R, alloc: Global, workers: u32, name: &str) {
    let mut host = chain(rt, alloc);
    let line = serve_line(rt, alloc, workers, name);
    let script = script_of(rt, alloc);
    let mut ids = ids_of(rt, alloc, &DRAWN);
    let out = script_done(rt, alloc, &line, &script, &mut host, &mut ids);
    judge(rt, alloc, text_of(rt, &out));
    for (script, told) in [
        look(rt, alloc),
        look_at_edges(rt, alloc),
        look_at_stripes(rt, alloc),
    ] {
        let out = printed(rt, alloc, LOOK, &script, &mut host);
        ask_text(rt, &out, &told);
    }
    let info = printed(rt, alloc, "info c.vhdx", "", &mut host);
    let count = if name == "c.vhdx" { 3 } else { 2 };
    ask(
        rt,
        text_of(rt, &info).lines().count() == count,
        "another chain",
    );
}

#[test]
fn ranges_beside_a_merge(rt: HostRuntime) {
    for (workers, name) in [(2u32, "b.vhdx"), (4, "c.vhdx")] {
        ask_ranges(&rt, rt.alloc(), workers, name);
    }
}
