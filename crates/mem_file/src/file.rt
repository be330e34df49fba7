// One file in memory, with all that was done to it since it was attached.
ghost use Rattle.std.specs.Prelude.{◌≡◌, ◌+◌, ◌≤◌, [], ◌∷◌, length, true, OnOk, OnErr};
ghost use Rattle.store_model.specs.Bytes.{written_over, extended};
ghost use Rattle.store_model.specs.File.{seen_after};
ghost use Rattle.store_model.specs.Lawful.{is_lawful};
ghost use Rattle.mem_file.specs.Steps.{op_of, ops_done, Fits};

use crate::replay::Pick;
use std::alloc::{AllocError, Global};
use vx_base::Name;

/// What was done to a file.
#[derive(Drop)]
pub enum Step {
    Wrote {
        at: u64,
        bytes: Vec<u8>,
    },
    /// A write of some bytes failed, and left others.
    Tore {
        at: u64,
        meant: Vec<u8>,
        left: Vec<u8>,
    },
    Grew {
        len: u64,
    },
    Synced,
    Sealed,
}

impl Step {
    ghost use Rattle.std.specs.Prelude.{IfOk};

    /// The same step again.
    pub fn try_clone(&self, alloc: Global) -> Result<Step, AllocError>
        ensures { IfOk result (λ copy. op_of copy ≡ op_of self.now) }
    {
        match self {
            Step::Wrote { at, bytes } => {
                let bytes = Vec::from_slice(alloc, bytes)?;
                Ok(Step::Wrote { at: *at, bytes })
            }
            Step::Tore { at, meant, left } => {
                let meant = Vec::from_slice(alloc, meant)?;
                let left = Vec::from_slice(alloc, left)?;
                Ok(Step::Tore {
                    at: *at,
                    meant,
                    left,
                })
            }
            Step::Grew { len } => Ok(Step::Grew { len: *len }),
            Step::Synced => Ok(Step::Synced),
            Step::Sealed => Ok(Step::Sealed),
        }
    }
}

/// A step of one of a store's files.
#[derive(Drop)]
pub struct Change {
    pub file: u32,
    pub step: Step,
}

/// A file: its name, its bytes as it was attached and as they are now, what was done since, and how many calls on it have failed.
#[derive(Drop)]
pub struct MemFile {
    pub name: Name,
    pub attached: Vec<u8>,
    pub now: Vec<u8>,
    pub steps: Vec<Step>,
    pub failed_reads: u64,
    pub failed_changes: u64,
    ghost current: { now.items ≡ seen_after attached.items (ops_done steps.items) },
    ghost lawful: { is_lawful attached.items (ops_done steps.items) ≡ true },
}

/// Writes within the slice.
pub fn overwrite(old: &mut [u8], at: usize, bytes: &[u8])
    requires { at + length bytes.now ≤ length old.old }
    ensures { old.new ≡ written_over old.old at bytes.now }
{
    old[at..at + bytes.len()].copy_from_slice(bytes);
}

/// The same of a vector.
pub fn write_within(old: &mut Vec<u8>, at: usize, bytes: &[u8])
    requires { at + length bytes.now ≤ length old.old.items }
    ensures { old.new.items ≡ written_over old.old.items at bytes.now }
{
    overwrite(old, at, bytes);
}

/// Longer by zeros, where it is shorter, unless memory runs out.
pub fn extend(old: &mut Vec<u8>, len: u64) -> Result<(), AllocError>
    ensures ok { OnOk result (old.new.items ≡ extended old.old.items len) }
    ensures err { OnErr result (old.new.items ≡ old.old.items) }
{
    if old.len() < len as usize {
        return old.resize(len as usize, 0);
    }
    Ok(())
}

impl MemFile {
    ghost use Rattle.std.specs.Prelude.{◌+◌, ◌-◌, ◌^◌, min, IfOk};
    ghost use Rattle.store_model.specs.Cause.{Rose};
    ghost use Rattle.store_model.specs.File.{with_op};
    ghost use Rattle.store_model.specs.Folder.{fresh};
    ghost use Rattle.mem_file.specs.MemFile.{contents, with_file};
    ghost use Rattle.mem_file.specs.Steps.{op_of, Fits, WritesBytes};

    /// A file of these bytes, of which nothing was done yet.
    pub fn new(alloc: Global, name: &Name, bytes: &[u8]) -> Result<MemFile, AllocError>
        ensures { IfOk result (λ file. contents file ≡ record { name = name.now; file = fresh bytes.now; failed_reads = 0; failed_changes = 0 }) }
    {
        Ok(MemFile {
            name: name.try_clone(alloc)?,
            attached: Vec::from_slice(alloc, bytes)?,
            now: Vec::from_slice(alloc, bytes)?,
            steps: Vec::new(alloc),
            failed_reads: 0,
            failed_changes: 0,
        })
    }

    /// Does a step, unless memory runs out.
    pub fn act(&mut self, step: Step) -> Result<(), AllocError>
        requires fits { Fits (length self.old.now.items) step }
        requires bytes { WritesBytes step }
        ensures ok { OnOk result (contents self.new ≡ with_file (with_op (op_of step)) (contents self.old)) }
        ensures err { OnErr result (contents self.new ≡ contents self.old) }
    {
        self.steps.try_reserve(1)?;
        Pick::Everything.redo(&mut self.now, &step, false)?;
        self.steps.push_reserved(step);
        Ok(())
    }

    /// One more read has failed. Answers how many have.
    pub fn fail_read(&mut self) -> u64
        ensures count { Rose self.old.failed_reads result }
        ensures once { result ≡ min (self.old.failed_reads + 1) (2 ^ 64 - 1) }
        ensures contents { contents self.new ≡ record (contents self.old) { failed_reads = result } }
    {
        self.failed_reads = self.failed_reads.saturating_add(1);
        self.failed_reads
    }

    /// One more change has failed. Answers how many have.
    pub fn fail_change(&mut self) -> u64
        ensures count { Rose self.old.failed_changes result }
        ensures once { result ≡ min (self.old.failed_changes + 1) (2 ^ 64 - 1) }
        ensures contents { contents self.new ≡ record (contents self.old) { failed_changes = result } }
    {
        self.failed_changes = self.failed_changes.saturating_add(1);
        self.failed_changes
    }
}
