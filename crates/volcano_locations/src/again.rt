//! Files that are read once more, after a refusal.

ghost use Rattle.std.specs.Prelude.{None, false};
ghost use Rattle.vx_catalog_bytes.specs.Stored.{silent};

use crate::reasons::{Reason, Reasons};
use vx_catalog_bytes::{Broken, ByteIn, Store};

/// Files of which only the regular ones open. A pipe has given its bytes, and who opens it again waits for somebody to write it.
///
/// Clauses know nothing of their bytes, since a store that knows a file's bytes has to open it.
#[derive(Clone, Copy)]
pub struct ReadAgain<'f, F> {
    pub files: &'f F,
}

/// A file that is open once more.
#[derive(Drop)]
pub struct FileAgain<I> {
    file: I,
}

impl<I: ByteIn> ByteIn for FileAgain<I> {
    ghost remaining = { λ _. None };

    ghost has_failed = { λ f. I.has_failed f.file };

    ghost is_reliable = { λ _. false };

    fn read(&mut self, buf: &mut [u8]) -> Result<usize, Broken> {
        self.file.read(buf)
    }

    fn failed(&self) -> bool {
        self.file.failed()
    }
}

impl<F: Store + Reasons> Store for ReadAgain<'_, F> {
    type In = FileAgain<F::In>;

    ghost holds = { λ _ _. silent };

    ghost is_reliable = { λ _ _. false };

    fn open(&self, path: &str) -> Option<FileAgain<F::In>> {
        if !self.files.is_regular(path) {
            return None;
        }
        let file = self.files.open(path)?;
        Some(FileAgain { file })
    }
}

impl<F: Reasons> Reasons for ReadAgain<'_, F> {
    fn reason(&self, path: &str) -> Option<Reason> {
        self.files.reason(path)
    }

    fn is_regular(&self, path: &str) -> bool {
        self.files.is_regular(path)
    }
}
