//! What deals out the morsels of a scan.

/// Calls: `draw*`.
///
/// Deals out the numbers of morsels, to one worker or to all workers of a scan.
pub trait Draw {
    ghost use Rattle.std.specs.Prelude.{ℕ, Option};

    // What a draw that returns this does.
    ghost Draws: { Self → Option ℕ → Self → Type 0 };

    /// The number of the next morsel, or none at the end.
    fn draw(&mut self) -> Option<u64>
        ensures { Draws self.old result self.new };
}
