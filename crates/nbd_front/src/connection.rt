//! Serving one connection.

ghost use Rattle.std.specs.Prelude.{◌≡◌, ◌*◌, ◌<◌, ◌^◌, Err, false};
ghost use Rattle.nbd_front.specs.Parts.{IsFresh, IsSector};
ghost use Rattle.nbd_front.specs.Sessions.{IsServed, world};

use crate::desk::{Desk, Room};
use crate::export::Export;
use crate::fields::greeting;
use crate::refusal::NbdRefusal;
use crate::sending::send;
use crate::served::Served;
use crate::session::serve_session;
use disk_calls::DiskCalls;
use store_model::{Sink, Source};
use vx_base::{Geometry, Name};

// What is served.
fn export_of<D: DiskCalls>(name: Name, is_read_only: bool, disk: &D) -> Export
    ensures export { result ≡ record { name = name; geometry = D.size disk.now; is_read_only = is_read_only } }
    ensures sector { IsSector result.geometry.sector }
    ensures few { result.geometry.sectors * result.geometry.sector < 2 ^ 64 }
{
    Export {
        name,
        geometry: Geometry {
            sector: disk.sector(),
            sectors: disk.sectors(),
        },
        is_read_only,
    }
}

/// Serves a connection as `serve` does, with what is served and a desk made before.
pub fn serve_with<S: Source, K: Sink, D: DiskCalls>(
    export: &Export,
    desk: &mut Desk,
    disk: &mut D,
    source: &mut S,
    sink: &mut K,
) -> Served
    requires size { IsSector export.now.geometry.sector }
    requires disk { D.size disk.old ≡ export.now.geometry }
    requires few { export.now.geometry.sectors * export.now.geometry.sector < 2 ^ 64 }
    requires fresh { IsFresh desk.old }
    ensures served { IsServed D.tells D.known export.now
        (world (S.left source.old) (S.faults source.old) (K.written sink.old) (K.faults sink.old) disk.old)
        (world (S.left source.new) (S.faults source.new) (K.written sink.new) (K.faults sink.new) disk.new) result }
{
    if let Err(fault) = send(sink, &greeting()) {
        return Served {
            end: Err(NbdRefusal::Sink(fault)),
            fault: false,
            no_room: false,
        };
    }
    let end = serve_session(export, disk, source, sink, desk);
    Served {
        end,
        fault: desk.tally.fault,
        no_room: desk.tally.no_room,
    }
}

/// Serves one connection of the NBD protocol (its document: fixed newstyle handshake, simple replies). The client's bytes come from
/// the source, however they are cut, and what it is sent goes to the sink. The disk is the one export, by this name; `is_read_only`
/// is what the client is told of it, and the disk itself refuses writes. No memory is taken but the room, unless the disk takes some.
/// It ends with the client's last message, or by what `Served::end` tells.
pub fn serve<S: Source, K: Sink, D: DiskCalls>(
    room: Room,
    name: Name,
    is_read_only: bool,
    disk: &mut D,
    source: &mut S,
    sink: &mut K,
) -> Served
    ensures served { IsServed D.tells D.known (record { name = name; geometry = D.size disk.old; is_read_only = is_read_only })
        (world (S.left source.old) (S.faults source.old) (K.written sink.old) (K.faults sink.old) disk.old)
        (world (S.left source.new) (S.faults source.new) (K.written sink.new) (K.faults sink.new) disk.new) result }
{
    let export = export_of(name, is_read_only, disk);
    let mut desk = Desk::new(room);
    serve_with(&export, &mut desk, disk, source, sink)
}
