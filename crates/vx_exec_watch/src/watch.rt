//! What is told how far a run has come.

/// What is told how far runs have come, by the thread that asked for them, as that which shows it to a person. No run depends on it, and no
/// clause says what it does.
pub trait Watch {
    /// The run that comes next is of the plan at `path`, one of several.
    fn announce(&self, path: &str);

    /// Whether anybody looks: else a run may tell nothing.
    fn is_looking(&self) -> bool;

    /// A run begins.
    fn begin(&self);

    /// The run goes on, and its root has given so many rows so far.
    fn note(&self, rows: u64);

    /// The run has ended.
    fn end(&self);
}

/// What tells nobody.
#[derive(Clone, Copy)]
pub struct Unwatched;

impl Watch for Unwatched {
    fn announce(&self, _path: &str) {}

    fn is_looking(&self) -> bool {
        false
    }

    fn begin(&self) {}

    fn note(&self, _rows: u64) {}

    fn end(&self) {}
}

/// What counts the rows that it gives.
pub trait CountsRows {
    ghost use Rattle.std.specs.Prelude.{◌≡◌, ℕ};

    // How many it has counted.
    ghost given: { Self → ℕ };

    /// How many it has counted.
    fn rows_given(&self) -> u64
        ensures { result ≡ given self.now };
}
