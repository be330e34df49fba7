//! What is kept in mind of the blocks that are there, for the search for overlaps.

ghost use Rattle.std.specs.Prelude.{◌≡◌, ◌∷◌, ◌++◌, [], true, List, IfOk, OnOk};
ghost use Rattle.block_table.specs.declared.overlaps.Block.{Block};
ghost use Rattle.block_table.specs.Overlaps.{HasEnd};
ghost use Rattle.unit_bits.specs.Marked.{count_of, marks_of};
ghost use Rattle.table_faults.specs.Keeping.{AreMarkedApart};

use block_table::Block;
use std::alloc::{AllocError, Global};
use unit_bits::UnitBits;

/// Keeps in mind what it needs of blocks.
pub trait Keeper: Drop {
    /// What it knows, where these were the blocks.
    ghost knows: { Self → List Block → Type 0 };

    /// Takes one block more.
    fn keep(&mut self, block: Block) -> Result<(), AllocError>
        requires { HasEnd block }
        ensures { OnOk result ((blocks : List Block) → knows self.old blocks → knows self.new (blocks ++ block ∷ [])) };
}

/// Keeps each block.
#[derive(Drop)]
pub struct Listed {
    pub blocks: Vec<Block>,
}

impl Listed {
    /// No block yet.
    pub fn new(alloc: Global) -> Listed
        ensures { result.blocks.items ≡ [] }
    {
        Listed {
            blocks: Vec::new(alloc),
        }
    }
}

impl Keeper for Listed {
    ghost knows = { λ kept blocks. kept.blocks.items ≡ blocks };

    fn keep(&mut self, block: Block) -> Result<(), AllocError> {
        self.blocks.push(block)?;
        Ok(())
    }
}

/// Keeps a bit for each unit of the file: as long as no two blocks have one together, and each lies in the file.
#[derive(Drop)]
pub struct Apart {
    bits: UnitBits,
    pub apart: bool,
}

impl Apart {
    /// No block yet, of a file of so many units.
    pub fn new(alloc: Global, units: u64) -> Result<Apart, AllocError>
        ensures none { IfOk result (λ kept. AreMarkedApart (marks_of kept.bits) []) }
        ensures units { IfOk result (λ kept. count_of kept.bits ≡ units) }
        ensures apart { IfOk result (λ kept. kept.apart ≡ true) }
    {
        Ok(Apart {
            bits: UnitBits::new(alloc, units)?,
            apart: true,
        })
    }
}

impl Keeper for Apart {
    ghost knows = { λ kept blocks. kept.apart ≡ true → AreMarkedApart (marks_of kept.bits) blocks };

    fn keep(&mut self, block: Block) -> Result<(), AllocError> {
        if self.apart {
            self.apart = self.bits.mark(block.unit, block.units);
        }
        Ok(())
    }
}
