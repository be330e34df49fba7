//! A connection, and work in other threads beside it.

ghost use Rattle.std.specs.Prelude.{◌≡◌, ◌<◌, ◌*◌, ◌^◌};
ghost use Rattle.std.specs.Fork.{AcceptsEach};
ghost use Rattle.serve_session.specs.Beside.{WasCalledAt};
ghost use denote.Param.Send.{IsSend, IsSync};
ghost use Rattle.nbd_front.specs.Parts.{IsFresh, IsSector};
ghost use Rattle.nbd_front.specs.Sessions.{IsServed, world};

use disk_calls::DiskCalls;
use nbd_front::{Desk, Export, Served, serve_with};
use std::thread::{Threads, for_each_mut, join_mut};
use store_model::{Sink, Source};

/// Serves a connection on this thread, and beside it calls a function for each of a slice, in threads of their own where they can be made.
pub fn serve_beside<
    R: Threads + Sync,
    A: Send,
    F: Fn(usize, &mut A) + Sync,
    Q: Source,
    K: Sink,
    D: DiskCalls,
>(
    rt: &R,
    all: &mut [A],
    f: &F,
    export: &Export,
    desk: &mut Desk,
    disk: &mut D,
    source: &mut Q,
    sink: &mut K,
) -> Served
    requires each { AcceptsEach F.Fn f.now all.old }
    requires size { IsSector export.now.geometry.sector }
    requires disk { D.size disk.old ≡ export.now.geometry }
    requires few { export.now.geometry.sectors * export.now.geometry.sector < 2 ^ 64 }
    requires fresh { IsFresh desk.old }
    ensures each { WasCalledAt F.Fn f.now all.old all.new }
    ensures served { IsServed D.tells D.known export.now
        (world (Q.left source.old) (Q.faults source.old) (K.written sink.old) (K.faults sink.old) disk.old)
        (world (Q.left source.new) (Q.faults source.new) (K.written sink.new) (K.faults sink.new) disk.new) result }
{
    let count = all.len().max(1);
    let mut work = ||
        requires { IsSync R.row × IsSync F.row × IsSend A.row × (0 < count) × AcceptsEach F.Fn f.now all.now }
        ensures { WasCalledAt F.Fn f.entry.now all.entry.now all.exit.now }
    { for_each_mut(rt, all, count, f) };
    let mut front = ||
        requires { IsSector export.now.geometry.sector × (D.size disk.now ≡ export.now.geometry) × (export.now.geometry.sectors * export.now.geometry.sector < 2 ^ 64) × IsFresh desk.now }
        ensures { IsServed D.tells D.known export.entry.now
            (world (Q.left source.entry.now) (Q.faults source.entry.now) (K.written sink.entry.now) (K.faults sink.entry.now) disk.entry.now)
            (world (Q.left source.exit.now) (Q.faults source.exit.now) (K.written sink.exit.now) (K.faults sink.exit.now) disk.exit.now) result }
    { serve_with(export, desk, disk, source, sink) };
    let (_, served) = join_mut(rt, &mut work, &mut front);
    served
}
