//! The files of the system, of which one fails as it is read.

ghost use Rattle.std.specs.Prelude.{None, false};
ghost use Rattle.vx_catalog_bytes.specs.Stored.{silent};

use std::fs::{File, Files};
use vx_catalog_bytes::{Broken, ByteIn, Disk, Real, Store};

/// A file that fails after so many bytes.
#[derive(Drop)]
pub struct CutFile {
    file: Real<File>,
    left: usize,
    broken: bool,
}

impl ByteIn for CutFile {
    ghost remaining = { λ _. None };

    ghost has_failed = { λ file. file.broken };

    ghost is_reliable = { λ _. false };

    fn read(&mut self, buf: &mut [u8]) -> Result<usize, Broken> {
        if self.broken || self.left == 0 {
            self.broken = true;
            return Err(Broken);
        }
        let most = buf.len().min(self.left);
        match self.file.read(&mut buf[..most]) {
            Ok(count) => {
                self.left = self.left.saturating_sub(count);
                Ok(count)
            }
            Err(_) => {
                self.broken = true;
                Err(Broken)
            }
        }
    }

    fn failed(&self) -> bool {
        self.broken
    }
}

/// The files of the system. The one at `path` fails after `after` bytes.
#[derive(Clone, Copy)]
pub struct CutDisk<'a, R> {
    pub disk: Disk<'a, R>,
    pub path: &'a str,
    pub after: usize,
}

impl<R: Files<File = File>> Store for CutDisk<'_, R> {
    type In = CutFile;

    ghost holds = { λ _ _. silent };

    ghost is_reliable = { λ _ _. false };

    fn open(&self, path: &str) -> Option<CutFile> {
        let left = if path == self.path {
            self.after
        } else {
            usize::MAX
        };
        Some(CutFile {
            file: self.disk.open(path)?,
            left,
            broken: false,
        })
    }
}
