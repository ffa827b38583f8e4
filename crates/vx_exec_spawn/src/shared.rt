//! What the threads of a run share.

use crate::start::Start;
use std::alloc::AllocError;
use vx_exec_watch::Board;
use vx_morsel_decks::SharedDeck;

/// What the threads of a run share.
pub struct Shared<'s, G, R, H> {
    /// Where morsels come from.
    pub morsels: &'s G,
    /// Says where hash routes send keys.
    pub router: &'s R,
    /// What each thread passes before it makes a step.
    pub gate: &'s H,
    /// The deck of each scan whose workers share one.
    pub decks: &'s Vec<SharedDeck>,
    /// Lets all begin at once.
    pub start: &'s Start,
    /// Has how far the run has come.
    pub board: &'s Board,
}

// By hand, since a derive would ask that what is lent can be copied too.
impl<G, R, H> Copy for Shared<'_, G, R, H> {}

impl<G, R, H> Clone for Shared<'_, G, R, H> {
    ghost use Rattle.std.specs.Prelude.{◌≡◌};

    ghost is_clone = { λ x y. y ≡ x };

    ghost is_infallible = { λ _. Unit {0} };

    fn clone(&self) -> Result<Self, AllocError> {
        Ok(*self)
    }
}
