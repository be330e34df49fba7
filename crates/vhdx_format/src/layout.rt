//! Where the parts of a file stand, in bytes from its start:
//!
//! | at | part | length |
//! |---|---|---|
//! | 0 | `vhdxfile`, and the program that made the file | |
//! | 65,536 | copy 1 of the header | 4,096 |
//! | 131,072 | copy 2 of the header | 4,096 |
//! | 196,608 | the first copy of the region table | 65,536 |
//! | 262,144 | the second copy of the region table | 65,536 |
//! | from 1,048,576 on | the log, the metadata, the block allocation table and the blocks, in any order | whole MB |
//!
//! The log is a ring of sectors. The metadata begin with their table.

/// 1 MB.
pub const MEGABYTE: u64 = 1_048_576;

/// How far the first copy of the header is from the file's start, and the second from the first, in bytes.
pub const HEADER_STEP: usize = 65_536;

/// How long a copy of the header is, in bytes.
pub const HEADER_LEN: usize = 4_096;

/// Where the region tables stand, behind the header's copies, in bytes.
pub const REGION_TABLES_AT: usize = 196_608;

/// How long a region table is, in bytes.
pub const REGION_TABLE_LEN: usize = 65_536;

/// How long the table of the metadata is, in bytes.
pub const METADATA_TABLE_LEN: usize = 65_536;

/// How long a sector of the log is, in bytes.
pub const LOG_SECTOR: usize = 4_096;
