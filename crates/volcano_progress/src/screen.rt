//! Where the line is shown, and by which clock.

ghost use Rattle.std.specs.Prelude.{◌≡◌, false};

use std::fs::Files;
use std::io::Write;
use std::time::Clock;
use vx_catalog_bytes::{ByteOut, Real};

/// Where lines are shown, and what they are made of beside bytes that were read. No clause says what a clock or a file
/// system answers.
pub trait Screen {
    /// A writer of the line.
    type Out: ByteOut + Drop;

    /// A writer that has not failed.
    fn out(&self) -> Self::Out
        ensures { Self.Out.has_failed result ≡ false };

    /// The time since some moment in milliseconds, where there is a clock.
    fn now(&self) -> Option<u64>;

    /// How many bytes the file at a path has, where that is known.
    fn size(&self, path: &str) -> Option<u64>;
}

/// A terminal behind a writer, with the clock and the files of the system.
#[derive(Clone, Copy)]
pub struct Terminal<'r, R, W> {
    rt: &'r R,
    writer: W,
}

impl<'r, R, W> Terminal<'r, R, W> {
    /// A terminal behind this writer, which the system reaches.
    pub fn new(rt: &'r R, writer: W) -> Terminal<'r, R, W> {
        Terminal { rt, writer }
    }
}

impl<R: Clock + Files, W: Write + Copy> Screen for Terminal<'_, R, W> {
    type Out = Real<W>;

    fn out(&self) -> Real<W> {
        Real::new(self.writer)
    }

    fn now(&self) -> Option<u64> {
        match self.rt.monotonic() {
            Ok(time) => Some(
                time.as_secs()
                    .saturating_mul(1_000)
                    .saturating_add(u64::from(time.subsec_millis())),
            ),
            Err(_) => None,
        }
    }

    fn size(&self, path: &str) -> Option<u64> {
        match self.rt.metadata(path) {
            Ok(file) if file.is_file() => Some(file.len()),
            _ => None,
        }
    }
}
