//! Stories over files in memory: each is a list of steps, which are data, and is played over a host. A run that ends in another way than
//! its step says ends the test, since nothing is known of the files behind a fault.

ghost use Rattle.link_rules.specs.Folders.{AllIdle};
ghost use Rattle.mem_store.specs.HostTold.{hosted_by};
ghost use Rattle.store_model.specs.Disk.{WhereTold};

use crate::common::{
    Stretch, add, add_named, ask_at, bytes_of, empty_host, ids_of, line_refused, lines_of, prepare,
    says, script_done, stands,
};
use crate::files::{
    Entry, Patch, Plan, copy, name_log, patched, place_all, put_entries, put_locator,
};
use mem_store::{MemHost, MemIds, Slot};
use std::alloc::Global;
use std::process::Abort;
use std::sync::Wait;
use std::thread::Threads;
use vx_base::zeroed;

/// What a file is to hold.
pub enum Content {
    /// A plan's file, with these bytes over its own.
    Plan(Plan, &'static [Patch<'static>]),
    /// What another file holds.
    Copy(&'static str),
    /// What it holds, with zeros behind, so many bytes in all.
    Longer(usize),
    /// What it holds, with these bytes over its own.
    Patched(&'static [Patch<'static>]),
    /// What it holds, a child that was made, with a locator of these pairs.
    Located(&'static [(&'static str, &'static str)]),
    /// What it holds, with a log that is named and has these entries, which say that the file was flushed to so many bytes.
    Logged(u64, &'static [Entry]),
}

/// A step of a story.
pub enum Step {
    /// These identifiers are drawn from here on, and then 1, 2 and so on.
    Ids(&'static [[u8; 16]]),
    /// Lines with their scripts are all done.
    Prepare(&'static [(&'static str, &'static str)]),
    /// A line is done and prints this.
    Done(&'static str, &'static str),
    /// A line with a script is done and prints this.
    Script(&'static str, &'static str, &'static str),
    /// Lines are each refused and print this.
    Refused(&'static [&'static str], &'static str),
    /// A line prints these sectors.
    Dump(&'static str, &'static [Stretch]),
    /// The file of this name is put into the host, in place of the one that is there.
    Put(&'static str, Content),
    /// Two files hold the same.
    Same(&'static str, &'static str),
    /// A file has so many bytes.
    Length(&'static str, usize),
    /// These bytes stand in a file.
    Stands(&'static str, &'static [Patch<'static>]),
    /// These texts stand in a file, each letter in two bytes.
    Wide(&'static str, &'static [(usize, &'static str)]),
    /// There are so many files.
    Files(usize),
}

/// Plays a story over a host without a file.
pub fn play<R: Abort + Threads + Wait + Sync>(rt: &R, alloc: Global, story: &[Step]) {
    let mut host = empty_host(alloc);
    let mut ids = ids_of(rt, alloc, &[]);
    go_on(rt, alloc, story, &mut host, &mut ids);
}

/// Plays a story over a host, up to its end or to a step that isn't so, whose number, counted from 1, is told.
pub fn go_on<R: Abort + Threads + Wait + Sync>(
    rt: &R,
    alloc: Global,
    story: &[Step],
    host: &mut MemHost,
    ids: &mut MemIds,
)
    requires { WhereTold (hosted_by host.old).folder AllIdle }
    ensures { WhereTold (hosted_by host.new).folder AllIdle }
{
    let mut number = 0u64;
    for step in story {
        number = number.saturating_add(1);
        let so = play_step(rt, alloc, step, host, ids);
        ask_at(rt, so, number);
    }
}

// Plays a step, and answers whether it is so.
fn play_step<R: Abort + Threads + Wait + Sync>(
    rt: &R,
    alloc: Global,
    step: &Step,
    host: &mut MemHost,
    ids: &mut MemIds,
) -> bool
    requires { WhereTold (hosted_by host.old).folder AllIdle }
    ensures { WhereTold (hosted_by host.new).folder AllIdle }
{
    match step {
        Step::Ids(drawn) => {
            *ids = ids_of(rt, alloc, drawn);
            true
        }
        Step::Prepare(lines) => {
            prepare(rt, alloc, lines, host, ids);
            true
        }
        Step::Done(line, text) => is_done(rt, alloc, line, "", text, host, ids),
        Step::Script(line, script, text) => is_done(rt, alloc, line, script, text, host, ids),
        Step::Refused(lines, text) => are_refused(rt, alloc, lines, text, host, ids),
        Step::Dump(line, stretches) => {
            let text = lines_of(rt, alloc, stretches);
            is_done(rt, alloc, line, "", &text, host, ids)
        }
        Step::Put(name, content) => {
            put(rt, alloc, name, content, host);
            true
        }
        Step::Same(name, other) => file_in(rt, host, name) == file_in(rt, host, other),
        Step::Length(name, len) => file_in(rt, host, name).len() == *len,
        Step::Stands(name, parts) => all_stand(file_in(rt, host, name), parts),
        Step::Wide(name, texts) => all_stand_wide(rt, alloc, file_in(rt, host, name), texts),
        Step::Files(count) => host.slots.len() == *count,
    }
}

// Whether a line with its script, which is done, prints this.
fn is_done<R: Abort + Threads + Wait + Sync>(
    rt: &R,
    alloc: Global,
    line: &str,
    script: &str,
    text: &str,
    host: &mut MemHost,
    ids: &mut MemIds,
) -> bool
    requires { WhereTold (hosted_by host.old).folder AllIdle }
    ensures { WhereTold (hosted_by host.new).folder AllIdle }
{
    let out = script_done(rt, alloc, line, script, host, ids);
    says(&out, text)
}

// Whether lines, which are each refused, print this.
fn are_refused<R: Abort + Threads + Wait + Sync>(
    rt: &R,
    alloc: Global,
    lines: &[&str],
    text: &str,
    host: &mut MemHost,
    ids: &mut MemIds,
) -> bool
    requires { WhereTold (hosted_by host.old).folder AllIdle }
    ensures { WhereTold (hosted_by host.new).folder AllIdle }
{
    let mut told = true;
    for line in lines {
        let out = line_refused(rt, alloc, line, host, ids);
        told &= says(&out, text);
    }
    told
}

// Puts a file into the host, in place of the one that has its name.
fn put<R: Abort>(rt: &R, alloc: Global, name: &str, content: &Content, host: &mut MemHost)
    requires { WhereTold (hosted_by host.old).folder AllIdle }
    ensures { WhereTold (hosted_by host.new).folder AllIdle }
{
    let bytes = bytes_for(rt, alloc, host, name, content);
    *host = with_file(rt, alloc, host, name, &bytes);
}

// The bytes that a file is to hold.
fn bytes_for<R: Abort>(
    rt: &R,
    alloc: Global,
    host: &MemHost,
    name: &str,
    content: &Content,
) -> Vec<u8> {
    match content {
        Content::Plan(plan, patches) => patched(rt, alloc, *plan, patches),
        Content::Copy(other) => copied(rt, alloc, host, other),
        Content::Longer(len) => extended(rt, alloc, file_in(rt, host, name), *len),
        Content::Patched(patches) => {
            let mut file = copied(rt, alloc, host, name);
            place_all(&mut file, patches);
            file
        }
        Content::Located(pairs) => {
            let mut file = copied(rt, alloc, host, name);
            put_locator(rt, alloc, &mut file, pairs);
            file
        }
        Content::Logged(flushed, entries) => {
            let mut file = copied(rt, alloc, host, name);
            name_log(&mut file, [7; 16]);
            put_entries(rt, &mut file, *flushed, entries);
            file
        }
    }
}

// The bytes with zeros behind, so many in all.
fn extended<R: Abort>(rt: &R, alloc: Global, bytes: &[u8], len: usize) -> Vec<u8> {
    let mut file = zeroed(alloc, len).expect(rt, "no memory");
    copy(&mut file, bytes);
    file
}

// A host of the same files, but for that of a name, which has these bytes.
fn with_file<R: Abort>(rt: &R, alloc: Global, host: &MemHost, name: &str, bytes: &[u8]) -> MemHost
    ensures { WhereTold (hosted_by result).folder AllIdle }
{
    let mut next = empty_host(alloc);
    add(rt, alloc, &mut next, name, bytes);
    for slot in &host.slots {
        add_other(rt, slot, name, &mut next);
    }
    next
}

// Puts a slot's file into the host, if it has another name.
fn add_other<R: Abort>(rt: &R, slot: &Slot, name: &str, host: &mut MemHost)
    requires { WhereTold (hosted_by host.old).folder AllIdle }
    ensures { WhereTold (hosted_by host.new).folder AllIdle }
{
    if slot.name.as_bytes() != name.as_bytes() {
        add_named(rt, host, &slot.name, slot.seen());
    }
}

// The bytes of the file of this name.
fn file_in<'a, R: Abort>(rt: &R, host: &'a MemHost, name: &str) -> &'a [u8] {
    match bytes_of(host, name) {
        Some(bytes) => bytes,
        None => panic!(rt; "no file {name}"),
    }
}

// A copy of them.
fn copied<R: Abort>(rt: &R, alloc: Global, host: &MemHost, name: &str) -> Vec<u8> {
    file_in(rt, host, name)
        .to_vec(alloc)
        .expect(rt, "no memory")
}

// Whether the bytes stand at their places of the file.
fn all_stand(file: &[u8], parts: &[Patch<'_>]) -> bool {
    parts.iter().all(|(at, bytes)| stands(file, *at, bytes))
}

// Whether the text stands at a place of the file, each letter in two bytes.
fn stands_wide<R: Abort>(rt: &R, alloc: Global, file: &[u8], at: usize, text: &str) -> bool {
    let mut wide = Vec::new(alloc);
    for byte in text.as_bytes() {
        wide.extend_from_slice(&[*byte, 0]).expect(rt, "no memory");
    }
    stands(file, at, &wide)
}

fn all_stand_wide<R: Abort>(rt: &R, alloc: Global, file: &[u8], texts: &[(usize, &str)]) -> bool {
    let mut stand = true;
    for (at, text) in texts {
        stand &= stands_wide(rt, alloc, file, *at, text);
    }
    stand
}
