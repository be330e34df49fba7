//! Guests and a worker of a merge that wait for each other, each between two of its steps: neither needs the other's end to go on.

use crate::common::{
    DRAWN, LOOK, ask, ask_text, ids_of, printed, run_words, serve_line, sink_of, source_of,
    text_of, words_of,
};
use crate::merges::chain;
use mem_store::MemSink;
use std::alloc::Global;
use std::process::Abort;
use std::sync::atomic::AtomicU64;
use std::sync::atomic::Ordering::SeqCst;
use std::sync::{OnceLock, Wait};
use std::thread::{Threads, yield_now};
use store_model::Gate;
use vhdx_app::Status;

// How often one looks whether the other has come.
const LOOKS: u64 = 10_000_000;

// Stripes of the disk.
const STRIPES: u64 = 4;

// One of the two: whether it has come, and whether it went on without the other.
#[derive(Drop)]
struct Side {
    came: OnceLock<()>,
    alone: OnceLock<()>,
}

impl Side {
    fn new() -> Side {
        Side {
            came: OnceLock::new(),
            alone: OnceLock::new(),
        }
    }

    // Whether it comes before the one that looks for it gives up.
    fn comes(&self) -> bool {
        for _ in 0..LOOKS {
            if self.came.get().is_some() {
                return true;
            }
            yield_now();
        }
        false
    }

    fn come(&self) -> bool {
        self.came.try_set(()).is_ok()
    }

    // Waits for the other one.
    fn wait_for(&self, other: &Side) {
        if !other.comes() {
            let _ = self.alone.try_set(());
        }
    }

    // Comes, and waits for the other one where it comes for the first time.
    fn meet(&self, other: &Side) {
        if self.come() {
            self.wait_for(other);
        }
    }

    // Whether it has come, and never went on without the other.
    fn has_met(&self) -> bool {
        self.came.get().is_some() && self.alone.get().is_none()
    }
}

// A gate at which a guest whose read has had its turn and a worker that has claimed a stripe meet, each for the first time.
#[derive(Drop)]
struct Meeting {
    guest: Side,
    worker: Side,
}

impl Gate for Meeting {
    fn at<T: Wait>(&self, _rt: &T, place: u32) {
        match place {
            2 => self.worker.meet(&self.guest),
            3 => self.guest.meet(&self.worker),
            _ => {}
        }
    }
}

// A gate that holds the first guest whose read has had its turn until the worker has copied each stripe, none of them before that turn.
#[derive(Drop)]
struct Holding {
    guest: Side,
    worker: Side,
    // how often the worker has asked for a stripe
    asked: AtomicU64,
}

impl Gate for Holding {
    fn at<T: Wait>(&self, _rt: &T, place: u32) {
        match place {
            1 => {
                if self.asked.fetch_add(1, SeqCst) == STRIPES {
                    self.worker.come();
                }
            }
            2 => self.worker.wait_for(&self.guest),
            3 => self.guest.meet(&self.worker),
            _ => {}
        }
    }
}

// A gate between a worker's fetch of a stripe and its put. The first guest's first read waits until the worker has fetched a stripe, and the worker puts
// nothing until the guest's second read has had its turn.
#[derive(Drop)]
struct Between {
    guest: Side,
    worker: Side,
    // how many reads of guests have had their turn
    reads: AtomicU64,
    // how often the worker was about to put what it fetched
    puts: AtomicU64,
}

impl Gate for Between {
    fn at<T: Wait>(&self, _rt: &T, place: u32) {
        match place {
            2 => {
                self.puts.fetch_add(1, SeqCst);
                self.worker.meet(&self.guest);
            }
            3 => match self.reads.fetch_add(1, SeqCst) {
                0 => self.guest.wait_for(&self.worker),
                _ => {
                    self.guest.come();
                }
            },
            _ => {}
        }
    }
}

// A gate that counts how often a worker was about to put a stripe that it had fetched.
#[derive(Drop)]
struct Counting {
    puts: AtomicU64,
}

impl Gate for Counting {
    fn at<T: Wait>(&self, _rt: &T, place: u32) {
        if place == 2 {
            self.puts.fetch_add(1, SeqCst);
        }
    }
}

// Asks that both have met.
fn ask_met<R: Abort>(rt: &R, guest: &Side, worker: &Side) {
    ask(rt, guest.has_met(), "the guest met no worker");
    ask(rt, worker.has_met(), "the worker met no guest");
}

// Merges the file of this name of the chain by one worker, beside the guests of a script. Gives what was printed, and then what a look at the first
// stripe prints.
fn merged<R: Abort + Threads + Wait + Sync, G: Gate + Sync>(
    rt: &R,
    alloc: Global,
    name: &str,
    script: &str,
    gate: &G,
) -> (MemSink, MemSink) {
    let mut host = chain(rt, alloc);
    let words = words_of(rt, alloc, &serve_line(rt, alloc, 1, name));
    let mut input = source_of(rt, alloc, script.as_bytes());
    let mut out = sink_of(alloc);
    let mut ids = ids_of(rt, alloc, &DRAWN);
    let status = run_words(
        rt, alloc, &words, &mut input, &mut host, &mut ids, &mut out, gate,
    );
    ask(rt, status == Status::Done, "not done");
    let look = printed(rt, alloc, LOOK, "read 0 2048\n", &mut host);
    (out, look)
}

#[test]
fn guests_and_workers_meet(rt: HostRuntime) {
    let gate = Meeting {
        guest: Side::new(),
        worker: Side::new(),
    };
    let (out, _) = merged(&rt, rt.alloc(), "b.vhdx", "1 read 5 2\n", &gate);
    ask_met(&rt, &gate.guest, &gate.worker);
    ask_text(&rt, &out, "1 1 1 read 5 2 = 512*33 512*55\n");
}

// What a read is told stands by its place, though it goes on only when all is copied that it found elsewhere.
#[test]
fn a_read_outlasts_the_copies(rt: HostRuntime) {
    let gate = Holding {
        guest: Side::new(),
        worker: Side::new(),
        asked: AtomicU64::new(0),
    };
    let script = "1 read 5 2\n2 write 5 1 aa\n2 read 5 2\n";
    let (out, _) = merged(&rt, rt.alloc(), "b.vhdx", script, &gate);
    ask_met(&rt, &gate.guest, &gate.worker);
    let texts = [
        "1 1 1 read 5 2 = 512*33 512*55\n2 2 1 write 5 1 aa = done\n3 2 2 read 5 2 = 512*aa 512*55\n",
        "1 2 1 write 5 1 aa = done\n2 1 1 read 5 2 = 512*aa 512*55\n3 2 2 read 5 2 = 512*aa 512*55\n",
        "1 2 1 write 5 1 aa = done\n2 2 2 read 5 2 = 512*aa 512*55\n3 1 1 read 5 2 = 512*aa 512*55\n",
    ];
    let text = text_of(&rt, &out);
    ask(&rt, texts.contains(&text), text);
}

// What a worker fetched of the leaf is stale once a guest has written there: it is put nowhere, and the stripe is fetched once more.
#[test]
fn a_write_between_a_fetch_and_its_put(rt: HostRuntime) {
    let gate = Between {
        guest: Side::new(),
        worker: Side::new(),
        reads: AtomicU64::new(0),
        puts: AtomicU64::new(0),
    };
    let script = "1 read 6 1\n1 write 6 1 aa\n1 read 6 1\n";
    let (out, look) = merged(&rt, rt.alloc(), "c.vhdx", script, &gate);
    ask_met(&rt, &gate.guest, &gate.worker);
    ask_text(
        &rt,
        &out,
        "1 1 1 read 6 1 = 512*55\n2 1 2 write 6 1 aa = done\n3 1 3 read 6 1 = 512*aa\n",
    );
    ask_text(
        &rt,
        &look,
        "1 read 0 2048 = 2560*00 512*33 512*aa 1044992*00\n",
    );
    let puts = gate.puts.load(SeqCst);
    ask(&rt, puts == STRIPES + 1, "no stripe was fetched once more");
}

// With no guest a worker fetches each stripe once to put it, so that none is left to the end of the merge.
#[test]
fn a_worker_leaves_no_stripe(rt: HostRuntime) {
    for name in ["b.vhdx", "c.vhdx"] {
        let gate = Counting {
            puts: AtomicU64::new(0),
        };
        merged(&rt, rt.alloc(), name, "", &gate);
        ask(&rt, gate.puts.load(SeqCst) == STRIPES, name);
    }
}
