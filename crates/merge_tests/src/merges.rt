//! A merge beside guests: what each is told, and what the chain is behind it.

ghost use Rattle.link_rules.specs.Folders.{AllIdle};
ghost use Rattle.mem_store.specs.HostTold.{hosted_by};
ghost use Rattle.store_model.specs.Disk.{WhereTold};

use crate::common::{
    DRAWN, DRAWN_LATER, LOOK, add, ask, ask_text, caller_of, copy_of, empty_host, ids_of, prepare,
    printed, run_script, says, script_done, serve_line, text_of,
};
use mem_store::{MemHost, MemSink, ReaderFault};
use std::alloc::Global;
use std::process::Abort;
use std::sync::Wait;
use std::thread::Threads;
use vhdx_app::Status;

// A chain of three files. Of the four stripes of its disk the base holds the second, the middle file sectors 5 and 4,096, and the leaf
// sectors 6 and 6,144.
const CHAIN: &[(&str, &str)] = &[
    ("make dynamic a.vhdx --sectors 8192 --block 1", ""),
    ("steps a.vhdx", "write 2048 1 22\n"),
    ("make child b.vhdx --parent a.vhdx", ""),
    ("steps b.vhdx", "write 5 1 33\nwrite 4096 1 44\n"),
    ("make child c.vhdx --parent b.vhdx", ""),
    ("steps c.vhdx", "write 6 1 55\nwrite 6144 1 66\n"),
];

/// A look at the whole disk.
pub const READS: &str = "read 0 2048\nread 2048 2048\nread 4096 2048\nread 6144 2048\n";

// A merge: of the file of this name; how the lines of the chain begin behind it; and whether that of the base follows as it was.
#[derive(Clone, Copy)]
struct Merge {
    name: &'static str,
    chain: &'static str,
    spares_base: bool,
}

static LEAF: Merge = Merge {
    name: "c.vhdx",
    chain: "retired c.vhdx to b.vhdx\nb.vhdx child sectors 8192 sector 512 block 2 id {17171717-1717-1717-1717-171717171717} parent a.vhdx\n",
    spares_base: true,
};

static MIDDLE: Merge = Merge {
    name: "b.vhdx",
    chain: "c.vhdx child sectors 8192 sector 512 block 2 id {12121212-1212-1212-1212-121212121212} parent a.vhdx\na.vhdx dynamic sectors 8192 sector 512 block 1 id {17171717-1717-1717-1717-171717171717} parent none\n",
    spares_base: false,
};

// A script, how many calls it has, what its guests are told in whatever order, from the first guest on, and the disk behind it.
#[derive(Clone, Copy)]
struct Guests {
    script: &'static str,
    calls: usize,
    told: &'static [&'static [&'static str]],
    disk: &'static str,
}

static NONE: Guests = Guests {
    script: "",
    calls: 0,
    told: &[],
    disk: "1 read 0 2048 = 2560*00 512*33 512*55 1044992*00\n2 read 2048 2048 = 512*22 1048064*00\n3 read 4096 2048 = 512*44 1048064*00\n4 read 6144 2048 = 512*66 1048064*00\n",
};

static ONE: Guests = Guests {
    script: "1 write 0 1 aa\n1 read 4 4\n1 trim 4096 1\n1 read 4095 2\n1 flush\n1 write 6144 2 bb\n1 read 6143 4\n1 read 0 0\n",
    calls: 8,
    told: &[&[
        "1 1 write 0 1 aa = done",
        "1 2 read 4 4 = 512*00 512*33 512*55 512*00",
        "1 3 trim 4096 1 = done",
        "1 4 read 4095 2 = 1024*00",
        "1 5 flush = done",
        "1 6 write 6144 2 bb = done",
        "1 7 read 6143 4 = 512*00 1024*bb 512*00",
        "1 8 read 0 0 = refused 31 EmptyRange",
    ]],
    disk: "1 read 0 2048 = 512*aa 2048*00 512*33 512*55 1044992*00\n2 read 2048 2048 = 512*22 1048064*00\n3 read 4096 2048 = 1048576*00\n4 read 6144 2048 = 1024*bb 1047552*00\n",
};

static TWO: Guests = Guests {
    script: "1 write 0 1 aa\n2 write 4097 1 bb\n1 read 0 7\n2 trim 6144 1\n1 trim 5 1\n2 read 4095 4\n1 flush\n2 read 6143 3\n1 read 4 4\n2 flush\n1 write 2047 2 cc\n2 write 8191 1 dd\n1 read 2046 4\n2 read 8190 2\n",
    calls: 14,
    told: &[
        &[
            "1 1 write 0 1 aa = done",
            "1 2 read 0 7 = 512*aa 2048*00 512*33 512*55",
            "1 3 trim 5 1 = done",
            "1 4 flush = done",
            "1 5 read 4 4 = 1024*00 512*55 512*00",
            "1 6 write 2047 2 cc = done",
            "1 7 read 2046 4 = 512*00 1024*cc 512*00",
        ],
        &[
            "2 1 write 4097 1 bb = done",
            "2 2 trim 6144 1 = done",
            "2 3 read 4095 4 = 512*00 512*44 512*bb 512*00",
            "2 4 read 6143 3 = 1536*00",
            "2 5 flush = done",
            "2 6 write 8191 1 dd = done",
            "2 7 read 8190 2 = 512*00 512*dd",
        ],
    ],
    disk: "1 read 0 2048 = 512*aa 2560*00 512*55 1044480*00 512*cc\n2 read 2048 2048 = 512*cc 1048064*00\n3 read 4096 2048 = 512*44 512*bb 1047552*00\n4 read 6144 2048 = 1048064*00 512*dd\n",
};

static FOUR: Guests = Guests {
    script: "1 write 0 1 aa\n2 write 2049 2 bb\n3 trim 4096 1\n4 read 6144 1\n1 read 4 4\n2 read 2048 4\n3 read 4096 2\n4 write 6144 1 ee\n1 trim 6 1\n2 flush\n3 write 4100 1 cc\n4 read 6143 2\n1 read 5 2\n2 write 2050 1 dd\n3 read 4099 3\n4 flush\n",
    calls: 16,
    told: &[
        &[
            "1 1 write 0 1 aa = done",
            "1 2 read 4 4 = 512*00 512*33 512*55 512*00",
            "1 3 trim 6 1 = done",
            "1 4 read 5 2 = 512*33 512*00",
        ],
        &[
            "2 1 write 2049 2 bb = done",
            "2 2 read 2048 4 = 512*22 1024*bb 512*00",
            "2 3 flush = done",
            "2 4 write 2050 1 dd = done",
        ],
        &[
            "3 1 trim 4096 1 = done",
            "3 2 read 4096 2 = 1024*00",
            "3 3 write 4100 1 cc = done",
            "3 4 read 4099 3 = 512*00 512*cc 512*00",
        ],
        &[
            "4 1 read 6144 1 = 512*66",
            "4 2 write 6144 1 ee = done",
            "4 3 read 6143 2 = 512*00 512*ee",
            "4 4 flush = done",
        ],
    ],
    disk: "1 read 0 2048 = 512*aa 2048*00 512*33 1045504*00\n2 read 2048 2048 = 512*22 512*bb 512*dd 1047040*00\n3 read 4096 2048 = 2048*00 512*cc 1046016*00\n4 read 6144 2048 = 512*ee 1048064*00\n",
};

/// A host of the chain.
pub fn chain<R: Abort + Threads + Wait + Sync>(rt: &R, alloc: Global) -> MemHost
    ensures { WhereTold (hosted_by result).folder AllIdle }
{
    let mut host = empty_host(alloc);
    let mut ids = ids_of(rt, alloc, &[]);
    prepare(rt, alloc, CHAIN, &mut host, &mut ids);
    host
}

/// The bytes of the chain's files.
#[derive(Drop)]
pub struct Files {
    pub base: Vec<u8>,
    pub middle: Vec<u8>,
    pub leaf: Vec<u8>,
}

/// What stands in the host.
pub fn files_in<R: Abort>(rt: &R, alloc: Global, host: &MemHost) -> Files {
    Files {
        base: copy_of(rt, alloc, host, "a.vhdx"),
        middle: copy_of(rt, alloc, host, "b.vhdx"),
        leaf: copy_of(rt, alloc, host, "c.vhdx"),
    }
}

/// A host of these files.
pub fn host_of<R: Abort>(rt: &R, alloc: Global, files: &Files) -> MemHost
    ensures { WhereTold (hosted_by result).folder AllIdle }
{
    let mut host = empty_host(alloc);
    add(rt, alloc, &mut host, "a.vhdx", &files.base);
    add(rt, alloc, &mut host, "b.vhdx", &files.middle);
    add(rt, alloc, &mut host, "c.vhdx", &files.leaf);
    host
}

fn are_same(files: &Files, others: &Files) -> bool {
    files.base.as_slice() == others.base.as_slice()
        && files.middle.as_slice() == others.middle.as_slice()
        && files.leaf.as_slice() == others.leaf.as_slice()
}

// Asks that each guest is told so, in the order of its calls, and that places are counted from 1.
fn ask_told<R: Abort>(rt: &R, alloc: Global, text: &str, told: &[&[&str]]) {
    let mut next = [0usize; 64];
    let mut last = 0u64;
    for line in text.lines() {
        let place = line.split(' ').next().expect(rt, "no place");
        let (guest, _) = caller_of(line).expect(rt, "no caller");
        let guest = guest.checked_sub(1).expect(rt, "guest 0") as usize;
        let at = next.get_mut(guest).expect(rt, "another guest");
        let calls = told.get(guest).expect(rt, "another guest");
        let call = calls.get(*at).expect(rt, "another call");
        *at = (*at).saturating_add(1);
        let wanted = format!(in alloc; "{place} {call}").expect(rt, "no memory");
        ask(rt, line == wanted.as_str(), line);
        if place != "-" {
            last = last.saturating_add(1);
            ask(rt, place.parse::<u64>() == Ok(last), line);
        }
    }
}

// Asks that the chain's lines are those behind the merge.
fn ask_chain<R: Abort + Threads + Wait + Sync>(
    rt: &R,
    alloc: Global,
    merge: &Merge,
    base: &MemSink,
    host: &mut MemHost,
)
    requires { WhereTold (hosted_by host.old).folder AllIdle }
    ensures { WhereTold (hosted_by host.new).folder AllIdle }
{
    let mut text = String::from_str(alloc, merge.chain).expect(rt, "no memory");
    if merge.spares_base {
        text.push_str(text_of(rt, base)).expect(rt, "no memory");
    }
    let out = printed(rt, alloc, "info c.vhdx", "", host);
    ask_text(rt, &out, &text);
}

// Asks that no file has a finding.
fn ask_clean<R: Abort + Threads + Wait + Sync>(rt: &R, alloc: Global, host: &mut MemHost)
    requires { WhereTold (hosted_by host.old).folder AllIdle }
    ensures { WhereTold (hosted_by host.new).folder AllIdle }
{
    let out = printed(rt, alloc, "check a.vhdx", "", host);
    ask_text(rt, &out, "clean\n");
    let out = printed(rt, alloc, "check b.vhdx", "", host);
    ask_text(rt, &out, "clean\n");
    let out = printed(rt, alloc, "check c.vhdx", "", host);
    ask_text(rt, &out, "clean\n");
}

// Asks that a merge by so many workers beside the guests ends so.
fn ask_served<R: Abort + Threads + Wait + Sync>(
    rt: &R,
    alloc: Global,
    merge: &Merge,
    guests: &Guests,
    workers: u32,
) {
    let mut host = chain(rt, alloc);
    let base = printed(rt, alloc, "info a.vhdx", "", &mut host);
    let line = serve_line(rt, alloc, workers, merge.name);
    let mut ids = ids_of(rt, alloc, &DRAWN);
    let out = script_done(rt, alloc, &line, guests.script, &mut host, &mut ids);
    let text = text_of(rt, &out);
    ask(rt, text.lines().count() == guests.calls, text);
    ask_told(rt, alloc, text, guests.told);
    ask_chain(rt, alloc, merge, &base, &mut host);
    let disk = printed(rt, alloc, LOOK, READS, &mut host);
    ask_text(rt, &disk, guests.disk);
}

#[test]
fn leaf_merges_beside_guests(rt: HostRuntime) {
    for (guests, workers) in [(&NONE, 2u32), (&ONE, 4), (&TWO, 64), (&FOUR, 3)] {
        ask_served(&rt, rt.alloc(), &LEAF, guests, workers);
    }
}

#[test]
fn merges_beside_guests(rt: HostRuntime) {
    for (guests, workers) in [(&NONE, 2u32), (&ONE, 0), (&TWO, 1), (&FOUR, 3)] {
        ask_served(&rt, rt.alloc(), &MIDDLE, guests, workers);
    }
}

// What a session leaves of the chain.
fn files_behind<R: Abort + Threads + Wait + Sync>(
    rt: &R,
    alloc: Global,
    line: &str,
    script: &str,
) -> Files {
    let mut host = chain(rt, alloc);
    let mut ids = ids_of(rt, alloc, &DRAWN);
    script_done(rt, alloc, line, script, &mut host, &mut ids);
    files_in(rt, alloc, &host)
}

// With no guest, and a worker or none, the files are those that `steps` leaves.
#[test]
fn leaves_the_files_of_steps(rt: HostRuntime) {
    let alloc = rt.alloc();
    for (line, other) in [
        (
            "serve c.vhdx --workers 1 --merge c.vhdx",
            "steps c.vhdx --merge c.vhdx",
        ),
        (
            "serve c.vhdx --workers 0 --merge b.vhdx",
            "steps c.vhdx --merge b.vhdx",
        ),
        (
            "serve c.vhdx --workers 1 --merge b.vhdx",
            "steps c.vhdx --merge b.vhdx",
        ),
    ] {
        let files = files_behind(&rt, alloc, line, "");
        let steps = files_behind(&rt, alloc, other, "copy\nfinish\n");
        ask(&rt, are_same(&files, &steps), line);
    }
}

// A reader by which a worker fetches stripes fails: the status tells it, and the stripe is copied behind the threads.
#[test]
fn a_stripe_that_cannot_be_fetched(rt: HostRuntime) {
    let alloc = rt.alloc();
    for read in [1u64, 2] {
        let mut host = chain(&rt, alloc);
        host.failing_reader = Some(ReaderFault { reader: 0, read });
        let mut ids = ids_of(&rt, alloc, &DRAWN);
        let line = "serve c.vhdx --workers 1 --merge b.vhdx";
        let (status, out) = run_script(&rt, alloc, line, "", &mut host, &mut ids);
        ask(&rt, status == Status::Fault && says(&out, ""), "no fault");
        let left = files_in(&rt, alloc, &host);
        let mut host = host_of(&rt, alloc, &left);
        let out = printed(&rt, alloc, "info c.vhdx", "", &mut host);
        ask_text(&rt, &out, MIDDLE.chain);
        let out = printed(&rt, alloc, LOOK, READS, &mut host);
        ask_text(&rt, &out, NONE.disk);
    }
}

// A line with its script, the identifier that is drawn first, and how it ends.
type Refused = (&'static str, &'static str, u8, Status, &'static str);

static REFUSED: [Refused; 13] = [
    (
        "serve c.vhdx --workers 2 --merge x.vhdx",
        "1 write 0 1 aa\n",
        0x11,
        Status::Refused,
        "refused 40 NotInChain x.vhdx\n",
    ),
    (
        "serve b.vhdx --workers 0 --merge c.vhdx",
        "1 write 0 1 aa\n",
        0x11,
        Status::Refused,
        "refused 40 NotInChain c.vhdx\n",
    ),
    (
        "serve c.vhdx --workers 0 --merge a.vhdx",
        "1 write 0 1 aa\n",
        0x11,
        Status::Refused,
        "refused 41 IsBase a.vhdx\n",
    ),
    (
        "serve a.vhdx --workers 2 --merge a.vhdx",
        "1 write 0 1 aa\n",
        0x11,
        Status::Refused,
        "refused 41 IsBase a.vhdx\n",
    ),
    (
        "serve x.vhdx --workers 2 --merge c.vhdx",
        "1 write 0 1 aa\n",
        0x11,
        Status::Refused,
        "refused 21 FileMissing x.vhdx\n",
    ),
    (
        "serve c.vhdx --workers 2 --merge c.vhdx",
        "1 write 0 1 aa\n",
        0,
        Status::Refused,
        "refused 44 IdUnfit {00000000-0000-0000-0000-000000000000}\n",
    ),
    (
        "serve c.vhdx --workers 2 --merge b.vhdx",
        "1 write 0 1 aa\n",
        0,
        Status::Refused,
        "refused 44 IdUnfit {00000000-0000-0000-0000-000000000000}\n",
    ),
    (
        "serve c.vhdx --workers 65 --merge b.vhdx",
        "1 flush\n",
        0x11,
        Status::Usage,
        "",
    ),
    (
        "serve c.vhdx --merge b.vhdx",
        "1 flush\n",
        0x11,
        Status::Usage,
        "",
    ),
    (
        "serve c.vhdx --workers 2 --merge",
        "1 flush\n",
        0x11,
        Status::Usage,
        "",
    ),
    (
        "serve c.vhdx --workers 2 --merge b.vhdx --read-only",
        "1 flush\n",
        0x11,
        Status::Usage,
        "",
    ),
    (
        "serve c.vhdx --workers 2 --merge b.vhdx",
        "1 write 0 1 aa\n1 copy\n",
        0x11,
        Status::Usage,
        "line 2\n",
    ),
    (
        "serve c.vhdx --workers 2 --merge b.vhdx",
        "finish\n",
        0x11,
        Status::Usage,
        "line 1\n",
    ),
];

// No file is changed then.
#[test]
fn which_merges_are_refused(rt: HostRuntime) {
    let alloc = rt.alloc();
    let files = files_in(&rt, alloc, &chain(&rt, alloc));
    for (line, script, drawn, status, text) in &REFUSED {
        let mut host = host_of(&rt, alloc, &files);
        let mut ids = ids_of(&rt, alloc, &[[*drawn; 16], [0x12; 16], [0x13; 16]]);
        let (ended, out) = run_script(&rt, alloc, line, script, &mut host, &mut ids);
        ask(&rt, ended == *status && says(&out, text), line);
        let left = files_in(&rt, alloc, &host);
        ask(&rt, are_same(&left, &files), line);
    }
}

// What the leaf's name leads to is merged in turn, and served by that name.
#[test]
fn one_merge_behind_another(rt: HostRuntime) {
    let alloc = rt.alloc();
    let mut host = chain(&rt, alloc);
    let mut ids = ids_of(&rt, alloc, &DRAWN);
    let line = "serve c.vhdx --workers 2 --merge c.vhdx";
    let out = script_done(&rt, alloc, line, "1 write 7 1 aa\n", &mut host, &mut ids);
    ask_text(&rt, &out, "1 1 1 write 7 1 aa = done\n");
    let mut ids = ids_of(&rt, alloc, &DRAWN_LATER);
    let line = "serve c.vhdx --workers 2 --merge b.vhdx";
    let out = script_done(&rt, alloc, line, "1 write 8 1 bb\n", &mut host, &mut ids);
    ask_text(&rt, &out, "1 1 1 write 8 1 bb = done\n");
    let out = printed(&rt, alloc, "info c.vhdx", "", &mut host);
    let told =
        "retired c.vhdx to b.vhdx\nretired b.vhdx to a.vhdx\na.vhdx dynamic sectors 8192 sector 512 block 1 id {27272727-2727-2727-2727-272727272727} parent none\n";
    ask_text(&rt, &out, told);
    let out = printed(&rt, alloc, LOOK, "read 5 5\n", &mut host);
    let told = "1 read 5 5 = 512*33 512*55 512*aa 512*bb 512*00\n";
    ask_text(&rt, &out, told);
    let out = printed(&rt, alloc, "dump c.vhdx 8 1", "", &mut host);
    ask(&rt, out.bytes.starts_with(b"8 bbbb"), "another dump");
    ask_clean(&rt, alloc, &mut host);
}
