//! Workers of a merge whose source has nothing of most of the disk: they pass over that, and no turn is taken for each of its stripes.

ghost use Rattle.link_rules.specs.Folders.{AllIdle};
ghost use Rattle.mem_store.specs.HostTold.{hosted_by};
ghost use Rattle.store_model.specs.Disk.{WhereTold};

use crate::common::{
    DRAWN, LOOK, ask, ask_text, empty_host, ids_of, prepare, printed, run_words, serve_line,
    sink_of, source_of, words_of,
};
use mem_store::MemHost;
use std::alloc::Global;
use std::process::Abort;
use std::sync::Wait;
use std::sync::atomic::AtomicU64;
use std::sync::atomic::Ordering::SeqCst;
use std::thread::Threads;
use store_model::Gate;
use vhdx_app::Status;

// A chain of three files. Its disk has 1,024 stripes, two in a block of a child. Each child has its first block and another one; the base has one
// stripe.
const CHAIN: &[(&str, &str)] = &[
    ("make dynamic a.vhdx --sectors 2097152 --block 1", ""),
    ("steps a.vhdx", "write 4096 1 22\n"),
    ("make child b.vhdx --parent a.vhdx", ""),
    ("steps b.vhdx", "write 5 1 33\nwrite 2097151 1 44\n"),
    ("make child c.vhdx --parent b.vhdx", ""),
    ("steps c.vhdx", "write 6 1 55\nwrite 1048576 1 66\n"),
];

const READS: &str = "read 4 4\nread 4096 1\nread 100000 3\nread 1048576 1\nread 2097150 2\n";

// How often a worker is about to put a stripe at most, with no guest beside it: the two stripes of each block that the source has, and the first of
// each run of blocks that it doesn't have.
const PUTS: u64 = 6;

// A gate that counts how often a worker was about to put a stripe that it had fetched.
#[derive(Drop)]
struct Counting {
    puts: AtomicU64,
}

impl Gate for Counting {
    fn at<T: Wait>(&self, _rt: &T, place: u32) {
        if place == 2 {
            self.puts.fetch_add(1, SeqCst);
        }
    }
}

// A host of the chain.
fn chain<R: Abort + Threads + Wait + Sync>(rt: &R, alloc: Global) -> MemHost
    ensures { WhereTold (hosted_by result).folder AllIdle }
{
    let mut host = empty_host(alloc);
    let mut ids = ids_of(rt, alloc, &[]);
    prepare(rt, alloc, CHAIN, &mut host, &mut ids);
    host
}

// Merges the file of this name by so many workers, beside the guests of a script, and asks that the disk is this one then. Gives how often a worker
// was about to put a stripe.
fn merged<R: Abort + Threads + Wait + Sync>(
    rt: &R,
    alloc: Global,
    workers: u32,
    name: &str,
    script: &str,
    disk: &str,
) -> u64 {
    let gate = Counting {
        puts: AtomicU64::new(0),
    };
    let mut host = chain(rt, alloc);
    let words = words_of(rt, alloc, &serve_line(rt, alloc, workers, name));
    let mut input = source_of(rt, alloc, script.as_bytes());
    let mut out = sink_of(alloc);
    let mut ids = ids_of(rt, alloc, &DRAWN);
    let status = run_words(
        rt, alloc, &words, &mut input, &mut host, &mut ids, &mut out, &gate,
    );
    ask(rt, status == Status::Done, "not done");
    let look = printed(rt, alloc, LOOK, READS, &mut host);
    ask_text(rt, &look, disk);
    gate.puts.load(SeqCst)
}

#[test]
fn a_worker_passes_over_absent_stripes(rt: HostRuntime) {
    let disk =
        "1 read 4 4 = 512*00 512*33 512*55 512*00\n2 read 4096 1 = 512*22\n3 read 100000 3 = 1536*00\n4 read 1048576 1 = 512*66\n5 read 2097150 2 = 512*00 512*44\n";
    for name in ["b.vhdx", "c.vhdx"] {
        let puts = merged(&rt, rt.alloc(), 1, name, "", disk);
        ask(&rt, puts <= PUTS, name);
    }
}

// What guests write where the source had nothing is there behind the merge, whether a worker has passed over it before or not.
#[test]
fn writes_where_workers_pass_over(rt: HostRuntime) {
    let script =
        "1 write 100001 1 aa\n2 write 4 1 bb\n1 flush\n2 trim 1048576 1\n1 write 2097150 1 cc\n2 flush\n";
    let disk =
        "1 read 4 4 = 512*bb 512*33 512*55 512*00\n2 read 4096 1 = 512*22\n3 read 100000 3 = 512*00 512*aa 512*00\n4 read 1048576 1 = 512*00\n5 read 2097150 2 = 512*cc 512*44\n";
    for name in ["b.vhdx", "c.vhdx"] {
        merged(&rt, rt.alloc(), 2, name, script, disk);
    }
}
