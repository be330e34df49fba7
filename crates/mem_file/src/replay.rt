// What was done to a file, done again up to a moment, as a crash may have left it.
ghost use Rattle.std.specs.Prelude.{◌≡◌, ◌≤◌, ◌+◌, List, ◌∷◌, length, take, true, if◌then◌else◌, IfOk, OnOk, OnErr};
ghost use Rattle.store_model.specs.Bytes.{written_over, extended};
ghost use Rattle.store_model.specs.Lawful.{is_lawful};
ghost use Rattle.mem_file.specs.Steps.{Fits, op_of, ops_done};
ghost use Rattle.mem_file.specs.Picked.{is_second, takes_write, takes_growth, taken_of, picked, pick_before, redone};

use crate::file::{Step, extend, write_within};
use std::alloc::{AllocError, Global};

/// Which of the changes since the last sync an image has.
#[derive(Clone, Copy, Debug)]
pub enum Pick {
    /// No write and no growth.
    Nothing,
    Everything,
    /// The growths and every second write, from the second on.
    EverySecond,
    /// The growths, and of each write so many of its first bytes: where it is longer it is torn there.
    Front(u64),
}

// The first n bytes, or all where there are no more.
fn front(bytes: &[u8], n: usize) -> &[u8]
    ensures { result.now ≡ take n bytes.now }
{
    if n < bytes.len() { &bytes[..n] } else { bytes }
}

impl Pick {
    // Writes to an image, where it has the write.
    fn write(self, second: bool, image: &mut Vec<u8>, at: u64, bytes: &[u8])
        requires { takes_write self second ≡ true → at + length bytes.now ≤ length image.old.items }
        ensures { image.new.items ≡ (if takes_write self second then written_over image.old.items at (taken_of self bytes.now) else image.old.items) }
    {
        match self {
            Pick::Nothing => {}
            Pick::Everything => write_within(image, at as usize, bytes),
            Pick::EverySecond => {
                if second {
                    write_within(image, at as usize, bytes);
                }
            }
            Pick::Front(n) => write_within(image, at as usize, front(bytes, n as usize)),
        }
    }

    // Grows an image, where it has the growth.
    fn grow(self, image: &mut Vec<u8>, len: u64) -> Result<(), AllocError>
        ensures ok { OnOk result (image.new.items ≡ (if takes_growth self then extended image.old.items len else image.old.items)) }
        ensures err { OnErr result (image.new.items ≡ image.old.items) }
    {
        match self {
            Pick::Nothing => Ok(()),
            Pick::Everything | Pick::EverySecond | Pick::Front(_) => extend(image, len),
        }
    }

    // Does a step to an image, where it has it, unless memory runs out.
    pub(crate) fn redo(
        self,
        image: &mut Vec<u8>,
        step: &Step,
        second: bool,
    ) -> Result<(), AllocError>
        requires { takes_write self second ≡ true → Fits (length image.old.items) step.now }
        ensures ok { OnOk result (image.new.items ≡ redone self second (op_of step.now) image.old.items) }
        ensures err { OnErr result (image.new.items ≡ image.old.items) }
    {
        match step {
            Step::Wrote { at, bytes } => {
                self.write(second, image, *at, bytes);
                Ok(())
            }
            Step::Tore { at, left, .. } => {
                self.write(second, image, *at, left);
                Ok(())
            }
            Step::Grew { len } => self.grow(image, *len),
            Step::Synced | Step::Sealed => Ok(()),
        }
    }

    // Which of the changes before a step an image has: all, where it is a sync.
    fn before(self, step: &Step) -> Pick
        ensures { result ≡ pick_before self (op_of step.now) }
    {
        match step {
            Step::Synced => Pick::Everything,
            Step::Wrote { .. } | Step::Tore { .. } | Step::Grew { .. } | Step::Sealed => self,
        }
    }
}

// Whether the writes since the last sync are odd in number.
fn next_is_second(steps: &[Step]) -> bool
    ensures { result ≡ is_second (ops_done steps.now) }
{
    let Some((step, older)) = steps.split_last() else {
        return false;
    };
    match step {
        Step::Wrote { .. } | Step::Tore { .. } => !next_is_second(older),
        Step::Grew { .. } | Step::Sealed => next_is_second(older),
        Step::Synced => false,
    }
}

/// What a crash after these steps may have left.
pub fn image(
    alloc: Global,
    attached: &[u8],
    steps: &[Step],
    pick: Pick,
) -> Result<Vec<u8>, AllocError>
    requires { is_lawful attached.now (ops_done steps.now) ≡ true }
    ensures { IfOk result (λ bytes. bytes.items ≡ picked pick attached.now (ops_done steps.now)) }
{
    let Some((step, older)) = steps.split_last() else {
        return Vec::from_slice(alloc, attached);
    };
    let mut left = image(alloc, attached, older, pick.before(step))?;
    pick.redo(&mut left, step, next_is_second(older))?;
    Ok(left)
}
