//! Where the program's files are.

ghost use Rattle.std.specs.Prelude.{◌≡◌, ℕ, List, None, Bool, true, false, IfSome};
ghost use Rattle.vx_catalog_bytes.specs.Stored.{Stored, silent, MayBeAbsent, OpensAs};

use crate::bytes::{ByteIn, Real};
use std::fs;
use std::fs::{File, Files};

/// A place that has files by their paths.
pub trait Store {
    /// A file that is open, at its first byte.
    type In: ByteIn + Drop;

    // What the store knows of the file at this path: nothing, that there is no such file, or its bytes. A file with known bytes opens.
    ghost holds: { Self → List ℕ → Stored };

    // Whether no read of the file at this path will fail, as far as the store knows: `false` says nothing.
    ghost is_reliable: { Self → List ℕ → Bool };

    /// The file at this path, if there is one that opens.
    fn open(&self, path: &str) -> Option<Self::In>
        ensures bytes { IfSome result (λ file. OpensAs (holds self.now path.now) (Self.In.remaining file)) }
        ensures lacking { result ≡ None → MayBeAbsent (holds self.now path.now) }
        ensures whole { IfSome result (λ file. Self.In.has_failed file ≡ false) }
        ensures reliable { IfSome result (λ file. is_reliable self.now path.now ≡ true → Self.In.is_reliable file ≡ true) };
}

/// The files of the system, of which no clause knows the bytes, nor whether they are there.
#[derive(Clone, Copy)]
pub struct Disk<'r, R> {
    rt: &'r R,
}

impl<'r, R> Disk<'r, R> {
    /// The files that this runtime reaches.
    pub fn new(rt: &'r R) -> Disk<'r, R> {
        Disk { rt }
    }
}

impl<R: Files<File = File>> Store for Disk<'_, R> {
    type In = Real<File>;

    ghost holds = { λ _ _. silent };

    ghost is_reliable = { λ _ _. false };

    fn open(&self, path: &str) -> Option<Real<File>> {
        match fs::open(self.rt, path) {
            Ok(file) => Some(Real::new(file)),
            Err(_) => None,
        }
    }
}
