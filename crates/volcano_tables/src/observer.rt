//! What hears of the relations as they are loaded.

use std::alloc::AllocError;

/// What is called after each relation that was loaded.
pub trait Observer {
    ghost use Rattle.std.specs.Prelude.{◌≡◌, ◌++◌, ◌∷◌, [], ℕ, List, Option, option_map, OnOk};

    // The numbers of the relations so far, in order, where it keeps them.
    ghost seen: { Self → Option (List ℕ) };

    /// The relation with this number in its catalog was loaded.
    fn loaded(&mut self, relation: usize) -> Result<(), AllocError>
        ensures { OnOk result (seen self.new ≡ option_map (λ rs. rs ++ (relation ∷ [])) (seen self.old)) };
}

/// Keeps nothing.
#[derive(Clone, Copy)]
pub struct Unobserved;

impl Observer for Unobserved {
    ghost use Rattle.std.specs.Prelude.{None};

    ghost seen = { λ _. None };

    fn loaded(&mut self, _relation: usize) -> Result<(), AllocError> {
        Ok(())
    }
}
