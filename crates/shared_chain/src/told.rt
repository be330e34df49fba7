//! What a lock asks of the chain.

ghost use Rattle.shared_chain.specs.Bases.{Contains, basis_of, nothing, together};
ghost use Rattle.shared_chain.specs.Laws.{contains_both, contains_itself, contains_through};
ghost use Rattle.shared_chain.specs.Steps.{steps_of};

use crate::basis::{Basis, Step};
use crate::shared::SharedChain;
use store_model::Store;
use turn_lock::Told;

impl<S: Store> Told for SharedChain<S> {
    type Entry = Step;

    type Basis = Basis<S>;

    ghost history = { λ s. steps_of s.chain.recorder s.broke };

    ghost basis = { basis_of S.disk };

    ghost work = { λ f. f.events };

    ghost nothing = { nothing };

    ghost contains = { Contains };

    ghost together = { together };

    fn len(&self) -> u64 {
        self.steps()
    }

    ghost contains_itself = { contains_itself };

    ghost contains_through = { contains_through };

    ghost contains_both = { contains_both };
}
