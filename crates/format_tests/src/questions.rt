//! Questions that tables ask: each row is data, and a failure tells the table's name and the row, counted from 0.

use crate::locators::{damaged, is_named};
use crate::tables::checked;
use crate::updates::{Asked, changed, has_entry, has_room};
use crate::{locators, numbers, tables, updates};
use block_table::TableRefusal;
use crc32c::crc32c;
use meta_edit::MetaRefusal;
use numeral::number;
use parent_locator::LocatorRefusal;
use std::alloc::Global;
use std::process::Abort;

/// A question with what is to be answered.
pub enum Question {
    /// Of a text, the number that it is.
    Number(&'static str, Option<u64>),
    /// Of bytes, their checksum.
    Checksum(&'static [u8], u32),
    /// Of a locator's key and path, the parent that is named: none where it is refused for want of a name.
    Path(&'static str, &'static str, Option<&'static str>),
    /// Of a child's locator in which the byte at a place is another one, the refusal.
    Damage(usize, u8, LocatorRefusal),
    /// Of the entries of three blocks and of their bitmap, in a file of 1 GB, whether they are sound.
    Table([u64; 4], Result<(), TableRefusal>),
    /// Of a change, where an item then is: its place, its length and its flags.
    Change(Asked, usize, (u32, u32, u32)),
    /// Of a region's length and a locator's, why it isn't put there.
    Room(u32, usize, Option<MetaRefusal>),
    /// Of a table of so many entries with these flags, why a longer locator isn't put into a region of 72 KB.
    Full(u16, u32, Option<MetaRefusal>),
}

fn holds<R: Abort>(rt: &R, alloc: Global, question: &Question) -> bool {
    match question {
        Question::Number(text, wanted) => number(text.as_bytes()) == *wanted,
        Question::Checksum(bytes, wanted) => crc32c(bytes) == *wanted,
        Question::Path(key, path, wanted) => is_named(rt, alloc, *key, *path, *wanted),
        Question::Damage(at, byte, wanted) => damaged(rt, alloc, *at, *byte) == Some(*wanted),
        Question::Table(entries, wanted) => checked(rt, alloc, entries) == *wanted,
        Question::Change(asked, entry, wanted) => changed(rt, alloc, asked, *entry) == *wanted,
        Question::Room(region, len, wanted) => has_room(rt, alloc, *region, *len, *wanted),
        Question::Full(count, flags, wanted) => has_entry(rt, alloc, *count, *flags, *wanted),
    }
}

/// A table under its name.
type Table = (&'static str, &'static [Question]);

// Asks each question of a table.
fn ask_all<R: Abort>(rt: &R, alloc: Global, table: &Table) {
    for (row, question) in table.1.iter().enumerate() {
        let so = holds(rt, alloc, question);
        assert!(rt; so, "{} {row}", table.0);
    }
}

static TABLES: [Table; 8] = [
    ("decimals", numbers::DECIMALS),
    ("checksums", numbers::CHECKSUMS),
    ("the last component names the parent", locators::PATHS),
    ("damaged locators", locators::DAMAGE),
    ("the first broken rule of a table", tables::TABLES),
    ("values go where they fit", updates::CHANGES),
    ("what has no room", updates::LOCATORS),
    ("tables without an entry left", updates::TABLES),
];

#[test]
fn tables_of_questions(rt: HostRuntime) {
    for table in &TABLES {
        ask_all(&rt, rt.alloc(), table);
    }
}
