//! Whether somebody still reads what the program writes.

/// An output that may be a pipe. Where nobody reads it any more, a write fails, and that is nothing to report.
pub trait Pipe {
    ghost use Rattle.std.specs.Prelude.{◌≡◌, Bool};

    // Whether the last write failed because nobody reads any more.
    ghost closed: { Self → Bool };

    /// Whether the last write failed because nobody reads any more.
    fn is_closed(&self) -> bool
        ensures { result ≡ closed self.now };
}
