//! Updates of a file's metadata: where values go, and what has no room.

ghost use Rattle.std.specs.Prelude.{◌≡◌, true, IfOk};
ghost use Rattle.meta_edit.specs.Pages.{ArePages, HasMetadata};

use crate::asking::{ask, done, given, zeros};
use crate::locators::{child_of_b, childs, name_of, parent_id};
use crate::metadata::{item, laid, of_child};
use crate::questions::Question;
use crate::stores::Repeated;
use crate::tables::child;
use meta_edit::{MetaRefusal, Updates, locator_update, retire_update};
use parent_locator::{Locator, Pair, relinked, with_both_linkages};
use std::alloc::Global;
use std::process::Abort;
use vhdx_format::Page;
use vx_base::{Guid, Name, Parts, Units, put_u16, put_u32};

/// A region of 1 MB, and one of 72 KB.
const LONG: u32 = 1_048_576;

const SHORT: u32 = 73_728;

/// Which change is made of a file that has a child's locator, and perhaps a retired leaf's name: both linkages, another parent,
/// the name for which a leaf is retired, or that it isn't.
pub enum Asked {
    Both,
    Relinked(&'static str),
    Retired(&'static str),
    NotRetired,
}

fn with_both<R: Abort>(rt: &R, alloc: Global) -> Locator {
    let old = childs(rt, alloc);
    let id = parent_id(rt);
    done(rt, with_both_linkages(alloc, &old, &id, &Guid::zero()))
}

fn relinked_to<R: Abort>(rt: &R, alloc: Global, parent: &str) -> Locator {
    let old = childs(rt, alloc);
    let name = name_of(rt, alloc, parent);
    done(rt, relinked(alloc, &old, &Guid::zero(), &name))
}

// A locator of so many bytes, an even number from 34 on.
fn locator_of<R: Abort>(rt: &R, alloc: Global, len: usize) -> Locator {
    let mut key = Units::new(alloc);
    done(rt, key.push(120));
    let mut value = Units::new(alloc);
    for _ in 17..len / 2 {
        done(rt, value.push(120));
    }
    let mut locator = Locator::new(alloc);
    done(rt, locator.push(Pair { key, value }));
    locator
}

// The metadata of a child, and zeros behind them.
fn written<R: Abort>(rt: &R, alloc: Global) -> Repeated {
    let meta = of_child(child_of_b(rt, alloc));
    laid(rt, alloc, &meta, 65_766)
}

// A table of so many entries of no bytes, all of them the user's or none, and zeros behind it.
fn table_of<R: Abort>(rt: &R, alloc: Global, count: u16, flags: u32) -> Repeated {
    let mut bytes = zeros(rt, alloc, 131_072);
    assert!(rt; count <= 2_047);
    put_u16(bytes.as_mut_slice(), 10, count);
    for entry in 0..usize::from(count) {
        put_u32(bytes.as_mut_slice(), 56 + 32 * entry, flags);
    }
    Repeated { bytes }
}

// The parts of a file whose metadata's region has so many bytes.
fn parts_with(alloc: Global, meta_len: u32) -> Parts {
    let mut parts = child(alloc);
    parts.meta_len = meta_len;
    parts
}

fn has_region(parts: &Parts) -> bool
    ensures { result ≡ true → HasMetadata parts.now }
{
    parts.meta_at == 2_097_152 && (parts.meta_len == LONG || parts.meta_len == SHORT)
}

// The pages of a new locator, over earlier ones, or why there are none.
fn with_locator<R: Abort>(
    rt: &R,
    alloc: Global,
    store: &mut Repeated,
    parts: &Parts,
    over: &[Page],
    new: &Locator,
) -> Result<Updates, MetaRefusal>
    requires { ArePages parts.now over.now }
    ensures { IfOk result (ArePages parts.now) }
{
    assert!(rt; has_region(parts));
    locator_update(alloc, store, 0, parts, over, new)
}

// The pages of the name for which a leaf is retired, or of none, over earlier ones.
fn with_retired<R: Abort>(
    rt: &R,
    alloc: Global,
    store: &mut Repeated,
    parts: &Parts,
    over: &[Page],
    to: Option<&Name>,
) -> Result<Updates, MetaRefusal>
    requires { ArePages parts.now over.now }
    ensures { IfOk result (ArePages parts.now) }
{
    assert!(rt; has_region(parts));
    retire_update(alloc, store, 0, parts, over, to)
}

// The pages of a change that is made, over earlier ones.
fn updated<R: Abort>(
    rt: &R,
    alloc: Global,
    store: &mut Repeated,
    parts: &Parts,
    over: &[Page],
    asked: &Asked,
) -> Updates
    requires { ArePages parts.now over.now }
    ensures { ArePages parts.now result }
{
    let pages = match asked {
        Asked::Both => {
            let new = with_both(rt, alloc);
            with_locator(rt, alloc, store, parts, over, &new)
        }
        Asked::Relinked(parent) => {
            let new = relinked_to(rt, alloc, parent);
            with_locator(rt, alloc, store, parts, over, &new)
        }
        Asked::Retired(text) => {
            let name = name_of(rt, alloc, text);
            with_retired(rt, alloc, store, parts, over, Some(&name))
        }
        Asked::NotRetired => with_retired(rt, alloc, store, parts, over, None),
    };
    given(rt, pages)
}

// Lays the pages of an update over the region's bytes.
fn lay(bytes: &mut [u8], pages: &[Page]) {
    for page in pages {
        let at = page.at.saturating_sub(2_097_152) as usize;
        if at < bytes.len() && bytes.len() - at >= 4_096 {
            bytes[at..at + 4_096].copy_from_slice(&page.bytes);
        }
    }
}

// Makes a change of these bytes.
fn change<R: Abort>(rt: &R, alloc: Global, store: &mut Repeated, parts: &Parts, asked: &Asked) {
    let pages = updated(rt, alloc, store, parts, &[], asked);
    lay(store.bytes.as_mut_slice(), pages.as_slice());
}

/// What is changed, and where an item then is: its place, its length and its flags.
pub const CHANGES: &[Question] = &[
    // a locator of 190 bytes at 65,576: a longer one goes behind the last item, at a page
    Question::Change(Asked::Both, 5, (69_632, 308, 4)),
    Question::Change(Asked::Relinked("d.vhdx"), 5, (65_576, 190, 4)),
    Question::Change(Asked::Relinked("d.vhd"), 5, (65_576, 188, 4)),
    Question::Change(Asked::Relinked("dd.vhdx"), 5, (69_632, 192, 4)),
    // a first name of a retired leaf, and none
    Question::Change(Asked::Retired("c.vhdx"), 6, (69_632, 12, 1)),
    Question::Change(Asked::NotRetired, 6, (0, 0, 1)),
];

// Two changes that are made one over the other.
static TWICE: [Asked; 2] = [Asked::Both, Asked::Retired("c.vhdx")];

// Puts a locator of both linkages into the metadata, and over it a retired leaf's name.
fn change_twice<R: Abort>(rt: &R, alloc: Global, store: &mut Repeated, parts: &Parts) {
    let first = updated(rt, alloc, store, parts, &[], &TWICE[0]);
    let second = updated(rt, alloc, store, parts, first.as_slice(), &TWICE[1]);
    lay(store.bytes.as_mut_slice(), first.as_slice());
    lay(store.bytes.as_mut_slice(), second.as_slice());
}

static LATER: [(Asked, (u32, u32, u32)); 3] = [
    (Asked::Retired("b.vhd"), (73_728, 10, 1)),
    (Asked::NotRetired, (0, 0, 1)),
    (Asked::Retired("b"), (73_728, 2, 1)),
];

#[test]
fn later_updates_lie_over_the_earlier(rt: HostRuntime) {
    let parts = parts_with(rt.alloc(), LONG);
    let mut store = written(&rt, rt.alloc());
    change_twice(&rt, rt.alloc(), &mut store, &parts);
    ask(&rt, 3, item(store.bytes.as_slice(), 5) == (69_632, 308, 4));
    ask(&rt, 4, item(store.bytes.as_slice(), 6) == (73_728, 12, 1));
    for (row, (asked, wanted)) in LATER.iter().enumerate() {
        change(&rt, rt.alloc(), &mut store, &parts, asked);
        ask(&rt, row, item(store.bytes.as_slice(), 6) == *wanted);
    }
}

/// Where an item is once a change was made.
pub fn changed<R: Abort>(rt: &R, alloc: Global, asked: &Asked, entry: usize) -> (u32, u32, u32) {
    let parts = parts_with(alloc, LONG);
    let mut store = written(rt, alloc);
    change(rt, alloc, &mut store, &parts, asked);
    item(store.bytes.as_slice(), entry)
}

// Whether a locator is put into metadata of so many bytes, or is refused as is wanted.
fn is_answered<R: Abort>(
    rt: &R,
    alloc: Global,
    store: &mut Repeated,
    meta_len: u32,
    new: &Locator,
    wanted: Option<MetaRefusal>,
) -> bool {
    let parts = parts_with(alloc, meta_len);
    with_locator(rt, alloc, store, &parts, &[], new).err() == wanted
}

const FULL: Option<MetaRefusal> = Some(MetaRefusal::MetadataFull { file: 0 });

const LARGE: Option<MetaRefusal> = Some(MetaRefusal::LocatorTooLarge { len: 65_538 });

/// Regions with the length of a locator, and why it isn't put there.
pub const LOCATORS: &[Question] = &[
    // a region of 72 KB has one page behind the items
    Question::Room(SHORT, 4_096, None),
    Question::Room(SHORT, 4_098, FULL),
    Question::Room(SHORT, 65_538, LARGE),
    Question::Room(LONG, 65_536, None),
    Question::Room(LONG, 65_538, LARGE),
];

/// Tables of so many entries that are the user's or none, and why a longer locator isn't put into a region of 72 KB.
pub const TABLES: &[Question] = &[
    Question::Full(2_046, 0, None),
    Question::Full(2_047, 0, FULL),
    Question::Full(1_023, 1, None),
    Question::Full(1_024, 1, FULL),
];

/// Whether a locator of so many bytes is put into metadata of so many, or is refused as is wanted.
pub fn has_room<R: Abort>(
    rt: &R,
    alloc: Global,
    meta_len: u32,
    len: usize,
    wanted: Option<MetaRefusal>,
) -> bool {
    let mut store = written(rt, alloc);
    let new = locator_of(rt, alloc, len);
    is_answered(rt, alloc, &mut store, meta_len, &new, wanted)
}

/// Whether a longer locator is put beside so many entries with these flags, or is refused as is wanted.
pub fn has_entry<R: Abort>(
    rt: &R,
    alloc: Global,
    count: u16,
    flags: u32,
    wanted: Option<MetaRefusal>,
) -> bool {
    let mut store = table_of(rt, alloc, count, flags);
    let new = with_both(rt, alloc);
    is_answered(rt, alloc, &mut store, SHORT, &new, wanted)
}
