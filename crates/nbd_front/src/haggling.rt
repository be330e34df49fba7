//! Answering options.

ghost use Rattle.std.specs.Prelude.{◌≡◌, ◌*◌, ◌≤◌, ◌<◌, ◌^◌, ◌-◌, ◌+◌, ℕ, Err, Ok, IfErr, IfOk, OnOk, OnErr, take};
ghost use Rattle.std.specs.Io.KnownBytes.{Appends};
ghost use Rattle.store_model.specs.Cause.{Rose};
ghost use Rattle.nbd_front.specs.declared.next.Next.TheVariants.{Options};
ghost use Rattle.nbd_front.specs.Messages.{haggling};
ghost use Rattle.nbd_front.specs.Parts.{phase_after, phase_behind, stand, Leads, Session};
ghost use Rattle.nbd_front.specs.Wire as spec;

use crate::desk::Desk;
use crate::export::Export;
use crate::fields::{export_reply, export_reply_len, option_reply};
use crate::next::Next;
use crate::refusal::NbdRefusal;
use crate::sending::send;
use crate::taking::take_option;
use crate::tally::MOST_MESSAGES;
use disk_calls::DiskCalls;
use store_model::{Sink, SinkFault, Source};

// Answers the option that names the export.
fn send_export<K: Sink>(sink: &mut K, export: &Export, flags: u32) -> Result<(), SinkFault>
    requires { export.now.geometry.sectors * export.now.geometry.sector < 2 ^ 64 }
    ensures ok { OnOk result (Appends (K.written sink.old) (K.written sink.new) (spec.export_reply export.now flags)) }
    ensures cut { OnErr result ((n : ℕ) × Appends (K.written sink.old) (K.written sink.new) (take n (spec.export_reply export.now flags))) }
    ensures quiet { OnOk result (K.faults sink.new ≡ K.faults sink.old) }
    ensures rose { OnErr result (Rose (K.faults sink.old) (K.faults sink.new)) }
    ensures told { IfErr result (λ fault. fault.count ≡ K.faults sink.new) }
{
    let size = export.geometry.sectors * export.geometry.sector as u64;
    let reply = export_reply(size, export.is_read_only);
    send(sink, &reply[..export_reply_len(flags)])
}

// Serves the next option of a client with these flags, and tells what follows.
fn serve_option<S: Source, K: Sink, D: DiskCalls>(
    export: &Export,
    flags: u32,
    source: &mut S,
    sink: &mut K,
    desk: &mut Desk,
) -> Result<Next, NbdRefusal>
    requires few { export.now.geometry.sectors * export.now.geometry.sector < 2 ^ 64 }
    requires more { desk.old.tally.messages < 2 ^ 48 }
    ensures on { (disk : D) → IfOk result (λ next. Leads D.tells export.now (haggling flags)
        (stand desk.old (S.left source.old) (S.faults source.old) (K.written sink.old) (K.faults sink.old) disk) (phase_after flags next)
        (stand desk.new (S.left source.new) (S.faults source.new) (K.written sink.new) (K.faults sink.new) disk)) }
    ensures ended { (disk : D) → IfErr result (λ refusal. Session D.tells export.now (haggling flags)
        (stand desk.old (S.left source.old) (S.faults source.old) (K.written sink.old) (K.faults sink.old) disk)
        (stand desk.new (S.left source.new) (S.faults source.new) (K.written sink.new) (K.faults sink.new) disk) (Err refusal)) }
    ensures counted { result ≡ Ok Options → desk.new.tally.messages ≡ desk.old.tally.messages + 1 }
{
    let (number, is_named) = take_option(
        &mut desk.intake,
        source,
        desk.page.as_mut_slice(),
        export.name.as_bytes(),
    )?;
    if number == 1 {
        if !is_named {
            return Err(NbdRefusal::OtherName);
        }
        send_export(sink, export, flags)?;
        return Ok(Next::Requests);
    }
    if number == 2 {
        send(sink, &option_reply(2, 1))?;
        return Ok(Next::End);
    }
    send(sink, &option_reply(number, 0x8000_0001))?;
    desk.tally.count();
    Ok(Next::Options)
}

/// Serves options, and tells whether requests follow.
pub fn haggle<S: Source, K: Sink, D: DiskCalls>(
    export: &Export,
    flags: u32,
    source: &mut S,
    sink: &mut K,
    desk: &mut Desk,
) -> Result<bool, NbdRefusal>
    requires { export.now.geometry.sectors * export.now.geometry.sector < 2 ^ 64 }
    ensures on { (disk : D) → IfOk result (λ on. Leads D.tells export.now (haggling flags)
        (stand desk.old (S.left source.old) (S.faults source.old) (K.written sink.old) (K.faults sink.old) disk) (phase_behind on)
        (stand desk.new (S.left source.new) (S.faults source.new) (K.written sink.new) (K.faults sink.new) disk)) }
    ensures ended { (disk : D) → IfErr result (λ refusal. Session D.tells export.now (haggling flags)
        (stand desk.old (S.left source.old) (S.faults source.old) (K.written sink.old) (K.faults sink.old) disk)
        (stand desk.new (S.left source.new) (S.faults source.new) (K.written sink.new) (K.faults sink.new) disk) (Err refusal)) }
{
    while desk.tally.messages < MOST_MESSAGES {
        match serve_option::<S, K, D>(export, flags, source, sink, desk)? {
            Next::Options => {}
            Next::Requests => return Ok(true),
            Next::End => return Ok(false),
        }
    }
    Err(NbdRefusal::Spent)
}
