//! What the seats of one table know of each other: others are split from the first and joined into it again, and it counts
//! both.
//!
//! The tables and their rules stand in the crates above. Here is what each such rule says of that, and what follows where
//! a view changes, a seat is split or two are joined.
#![tactic(auto)]

ghost use Rattle.std.specs.Prelude.{◌≡◌};
ghost use Rattle.seats.specs.Families.{newborn};

/// What a seat knows of the others of its table.
#[derive(Clone, Copy)]
pub struct Family {
    /// Whether it is the seat that the table was made with.
    pub is_first: bool,
    /// How many seats were split from it.
    pub splits: u64,
    /// How many seats were joined into it.
    pub joins: u64,
}

impl Family {
    /// That of a seat from which none was split, and into which none was joined.
    pub fn new(is_first: bool) -> Family
        ensures { result ≡ newborn is_first }
    {
        Family {
            is_first,
            splits: 0,
            joins: 0,
        }
    }
}
