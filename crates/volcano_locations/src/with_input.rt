//! Files among which standard input has a text.

ghost use Rattle.std.specs.Prelude.{◌≡◌, option_map, Some, None};

use crate::reasons::{Reason, Reasons};
use vx_catalog_bytes::{Broken, ByteIn, MemoryIn, Store};

// The path of standard input.
const INPUT: &str = "-";

/// Files, and what was read of standard input, which stands under its path.
#[derive(Clone, Copy)]
pub struct WithInput<'f, F> {
    pub files: &'f F,
    pub input: Option<&'f [u8]>,
}

/// A file, or a text in memory.
#[derive(Drop)]
pub enum FileOrText<'t, I> {
    File(I),
    Text(MemoryIn<'t>),
}

impl<'t, I: ByteIn> ByteIn for FileOrText<'t, I> {
    ghost use Rattle.volcano_locations.specs.WithInput.{left_of, failed_of, reliable_of};

    ghost remaining = { left_of I.remaining };

    ghost has_failed = { failed_of I.has_failed };

    ghost is_reliable = { reliable_of I.is_reliable };

    fn read(&mut self, buf: &mut [u8]) -> Result<usize, Broken> {
        match self {
            FileOrText::File(file) => file.read(buf),
            FileOrText::Text(text) => text.read(buf),
        }
    }

    fn failed(&self) -> bool {
        match self {
            FileOrText::File(file) => file.failed(),
            FileOrText::Text(text) => text.failed(),
        }
    }
}

impl<'f, F: Store> Store for WithInput<'f, F> {
    type In = FileOrText<'f, F::In>;

    ghost use Rattle.volcano_locations.specs.WithInput.{holds_with, reliable_with};

    ghost holds = { λ s. holds_with (F.holds s.files.now) (option_map (λ t. t.now) s.input) };

    ghost is_reliable = { λ s. reliable_with (F.is_reliable s.files.now) };

    fn open(&self, path: &str) -> Option<FileOrText<'f, F::In>> {
        if path != INPUT {
            return Some(FileOrText::File(self.files.open(path)?));
        }
        let text = self.input?;
        Some(FileOrText::Text(MemoryIn::new(text, None)))
    }
}

impl<F: Reasons> Reasons for WithInput<'_, F> {
    fn reason(&self, path: &str) -> Option<Reason> {
        self.files.reason(path)
    }

    fn is_regular(&self, path: &str) -> bool {
        path == INPUT || self.files.is_regular(path)
    }
}
