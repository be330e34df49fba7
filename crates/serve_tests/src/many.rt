//! Many calls of many guests, whose transcript is judged by a plain model: one history, in which each call is told what the disk has there.

ghost use Rattle.link_rules.specs.Folders.{AllIdle};
ghost use Rattle.mem_store.specs.HostTold.{hosted_by};
ghost use Rattle.store_model.specs.Disk.{WhereTold};

use crate::common::{
    BASE, DRAWN, ask, ask_at, caller_of, empty_host, ids_of, is_one_of, script_done,
};
use mem_store::MemHost;
use std::alloc::Global;
use std::process::Abort;
use std::sync::Wait;
use std::thread::Threads;

const GUESTS: u64 = 16;

const CALLS: u64 = 500;

// Sectors that calls name, the first of which stands before the end of a stripe.
const SECTORS: u64 = 24;

const FIRST: u64 = 2_040;

// The line of a look at the disk behind a merge.
const LOOK: &str = "steps c.vhdx --read-only";

// What a call does.
#[derive(Clone, Copy)]
enum Kind {
    Read,
    Write(u8),
    Trim,
    Flush,
}

// A call: what it does, and to which sectors.
#[derive(Clone, Copy)]
struct Call {
    kind: Kind,
    first: u64,
    count: u64,
}

// Which calls the guests make.
#[derive(Clone, Copy)]
pub enum Crowd {
    /// Each guest makes calls of all kinds.
    Mixed,
    /// The first half of the guests read, and the others change the upper half of the sectors.
    Apart,
}

// A number that looks drawn, of a guest's call, both counted from 1.
fn drawn_of(guest: u64, number: u64) -> u64 {
    guest
        .wrapping_mul(2_654_435_761)
        .wrapping_add(number.wrapping_mul(40_503))
        .wrapping_mul(0x9E37_79B9_7F4A_7C15)
        >> 32
}

// The byte that a write has which is made of such a number.
fn byte_of(drawn: u64) -> u8 {
    (drawn >> 8 & 0xFF) as u8 | 1
}

// The call of any kind that is made of it.
fn any_call(drawn: u64) -> Call {
    let kind = match drawn % 16 {
        0 => Kind::Flush,
        1 | 2 => Kind::Trim,
        3..8 => Kind::Write(byte_of(drawn)),
        _ => Kind::Read,
    };
    Call {
        kind,
        first: FIRST.wrapping_add((drawn >> 4) % SECTORS),
        count: (drawn >> 12) % 4 + 1,
    }
}

// The read that is made of it.
fn read_call(drawn: u64) -> Call {
    Call {
        kind: Kind::Read,
        first: FIRST.wrapping_add((drawn >> 4) % SECTORS),
        count: (drawn >> 12) % 4 + 1,
    }
}

// The change of the upper half of the sectors that is made of it.
fn change_call(drawn: u64) -> Call {
    let kind = match drawn % 16 {
        0 => Kind::Flush,
        1 | 2 => Kind::Trim,
        _ => Kind::Write(byte_of(drawn)),
    };
    let half = SECTORS / 2;
    Call {
        kind,
        first: FIRST.wrapping_add(half).wrapping_add((drawn >> 4) % half),
        count: (drawn >> 12) % 4 + 1,
    }
}

// The call of this number of a guest, both counted from 1.
fn call_of(crowd: Crowd, guest: u64, number: u64) -> Call {
    let drawn = drawn_of(guest, number);
    match crowd {
        Crowd::Mixed => any_call(drawn),
        Crowd::Apart => {
            if guest <= GUESTS / 2 {
                read_call(drawn)
            } else {
                change_call(drawn)
            }
        }
    }
}

// Its words.
fn words_of<R: Abort>(rt: &R, alloc: Global, call: Call) -> String {
    let Call { kind, first, count } = call;
    let words = match kind {
        Kind::Read => format!(in alloc; "read {first} {count}"),
        Kind::Write(byte) => format!(in alloc; "write {first} {count} {byte:02x}"),
        Kind::Trim => format!(in alloc; "trim {first} {count}"),
        Kind::Flush => format!(in alloc; "flush"),
    };
    words.expect(rt, "no memory")
}

/// The script: a call of each guest in turn.
pub fn script_of<R: Abort>(rt: &R, alloc: Global, crowd: Crowd, calls: u64) -> String {
    let mut script = String::new(alloc);
    for number in 0..calls {
        for guest in 0..GUESTS {
            let guest = guest.wrapping_add(1);
            let call = call_of(crowd, guest, number.wrapping_add(1));
            let words = words_of(rt, alloc, call);
            let line = format!(in alloc; "{guest} {words}\n").expect(rt, "no memory");
            script.push_str(&line).expect(rt, "no memory");
        }
    }
    script
}

/// The byte that fills each sector.
#[derive(Drop)]
pub struct Model {
    sectors: [u8; 32],
}

impl Model {
    // Makes the bytes of a call's sectors one.
    fn fill(&mut self, call: Call, byte: u8) {
        let mut at = FIRST;
        for sector in self.sectors.iter_mut() {
            if at >= call.first && at - call.first < call.count {
                *sector = byte;
            }
            at = at.wrapping_add(1);
        }
    }

    // The runs of a call's sectors, as a read is told them.
    fn runs<R: Abort>(&self, rt: &R, alloc: Global, call: Call) -> String {
        let mut text = String::new(alloc);
        let mut run: Option<(u8, u64)> = None;
        let mut at = FIRST;
        for sector in self.sectors.iter() {
            if at >= call.first && at - call.first < call.count {
                run = match run {
                    Some((byte, len)) if byte == *sector => Some((byte, len.wrapping_add(512))),
                    other => {
                        push_run(rt, alloc, &mut text, other);
                        Some((*sector, 512))
                    }
                };
            }
            at = at.wrapping_add(1);
        }
        push_run(rt, alloc, &mut text, run);
        text
    }

    // Makes the call, and gives what it is told.
    fn answer<R: Abort>(&mut self, rt: &R, alloc: Global, call: Call) -> String {
        match call.kind {
            Kind::Read => self.runs(rt, alloc, call),
            Kind::Write(byte) => {
                self.fill(call, byte);
                done(rt, alloc)
            }
            Kind::Trim => {
                self.fill(call, 0);
                done(rt, alloc)
            }
            Kind::Flush => done(rt, alloc),
        }
    }
}

fn done<R: Abort>(rt: &R, alloc: Global) -> String {
    String::from_str(alloc, " done").expect(rt, "no memory")
}

fn push_run<R: Abort>(rt: &R, alloc: Global, text: &mut String, run: Option<(u8, u64)>) {
    if let Some((byte, len)) = run {
        let part = format!(in alloc; " {len}*{byte:02x}").expect(rt, "no memory");
        text.push_str(&part).expect(rt, "no memory");
    }
}

/// Asks that the lines are those of one history over a disk whose sectors are of a byte: by place, each guest's calls in their order, and each
/// told what the disk has there. Gives the disk behind it.
pub fn judge<R: Abort>(
    rt: &R,
    alloc: Global,
    text: &str,
    crowd: Crowd,
    calls: u64,
    byte: u8,
) -> Model {
    let mut model = Model {
        sectors: [byte; 32],
    };
    let mut made = [0u64; 16];
    let mut place = 0u64;
    for line in text.lines() {
        place = place.wrapping_add(1);
        let (guest, number) = caller_of(line).expect(rt, "no caller");
        let slot = guest.checked_sub(1).expect(rt, "guest 0");
        let last = made.get_mut(slot as usize).expect(rt, "another guest");
        *last = last.wrapping_add(1);
        ask_at(rt, *last == number && number <= calls, place);
        let call = call_of(crowd, guest, number);
        let words = words_of(rt, alloc, call);
        let told = model.answer(rt, alloc, call);
        let wanted = format!(in alloc; "{place} {guest} {number} {words} ={told}");
        let wanted = wanted.expect(rt, "no memory");
        ask_at(rt, line == wanted.as_str(), place);
    }
    ask(rt, place == calls.wrapping_mul(GUESTS), "a lost call");
    model
}

#[test]
fn one_history(rt: HostRuntime) {
    let alloc = rt.alloc();
    let script = script_of(&rt, alloc, Crowd::Mixed, CALLS);
    let mut host = empty_host(alloc);
    let mut ids = ids_of(&rt, alloc, &[]);
    script_done(&rt, alloc, BASE, "", &mut host, &mut ids);
    let out = script_done(
        &rt,
        alloc,
        "serve b.vhdx --workers 0",
        &script,
        &mut host,
        &mut ids,
    );
    let text = std::str::from_utf8(out.bytes.as_slice()).expect(&rt, "no text");
    judge(&rt, alloc, text, Crowd::Mixed, CALLS, 0);
}

// A chain of a larger disk. Its sectors that calls name are the middle file's, as are some stripes.
fn chain<R: Abort + Threads + Wait + Sync>(rt: &R, alloc: Global) -> MemHost
    ensures { WhereTold (hosted_by result).folder AllIdle }
{
    let mut host = empty_host(alloc);
    let mut ids = ids_of(rt, alloc, &[]);
    let dynamic = "make dynamic a.vhdx --sectors 65536 --block 1";
    script_done(rt, alloc, dynamic, "", &mut host, &mut ids);
    let child = "make child b.vhdx --parent a.vhdx";
    script_done(rt, alloc, child, "", &mut host, &mut ids);
    let script = "write 2040 32 51\nwrite 20480 2048 52\nwrite 40960 2048 53\n";
    script_done(rt, alloc, "steps b.vhdx", script, &mut host, &mut ids);
    let child = "make child c.vhdx --parent b.vhdx";
    script_done(rt, alloc, child, "", &mut host, &mut ids);
    host
}

// Asks for one history beside the merge of this line, which ends with its disk.
fn ask_history<R: Abort + Threads + Wait + Sync>(rt: &R, alloc: Global, line: &str) {
    let mut host = chain(rt, alloc);
    let script = script_of(rt, alloc, Crowd::Mixed, 16);
    let mut ids = ids_of(rt, alloc, &DRAWN);
    let out = script_done(rt, alloc, line, &script, &mut host, &mut ids);
    let text = std::str::from_utf8(out.bytes.as_slice()).expect(rt, "no text");
    let model = judge(rt, alloc, text, Crowd::Mixed, 16, 0x51);
    let all = Call {
        kind: Kind::Read,
        first: FIRST,
        count: 32,
    };
    let runs = model.runs(rt, alloc, all);
    let told = format!(in alloc;
        "1 read 2040 32 ={runs}\n2 read 20480 2048 = 1048576*52\n3 read 40960 2048 = 1048576*53\n"
    );
    let told = told.expect(rt, "no memory");
    let reads = "read 2040 32\nread 20480 2048\nread 40960 2048\n";
    let mut ids = ids_of(rt, alloc, &[]);
    let out = script_done(rt, alloc, LOOK, reads, &mut host, &mut ids);
    let texts = [told.as_str()];
    ask(rt, is_one_of(out.bytes.as_slice(), &texts), "another disk");
}

#[test]
fn one_history_beside_a_merge(rt: HostRuntime) {
    for line in [
        "serve c.vhdx --workers 2 --merge c.vhdx",
        "serve c.vhdx --workers 4 --merge b.vhdx",
    ] {
        ask_history(&rt, rt.alloc(), line);
    }
}
