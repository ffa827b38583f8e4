//! A port whose bytes are counted as they are read.

ghost use Rattle.std.specs.Prelude.{◌≡◌, ◌⊎◌, ℕ, List, Option, None, Bool, Err, true, false};
ghost use Rattle.std.specs.Io.KnownBytes.{IsAtEnd};
ghost use Rattle.std.specs.Borrow.{GName};
ghost use Rattle.vx_catalog_bytes.specs.Ports.{IsOver};
ghost use Rattle.vx_catalog.specs.Counting.{is_within, left_of, StaysKnown, Settles};
ghost use Rattle.vx_rows_values.specs.Limits.{max_text_bytes};

use crate::fault::LoadFault;
use std::io;
use std::io::{ErrorKind, Read};
use std::marker::{Brand, PhantomData};
use vx_catalog_bytes::ByteIn;
use vx_rows_values::limits::MAX_TEXT_BYTES;
use vx_rows_views::Rows;

/// Names a port, and what was known of it when its counting began. A type names them, since the contracts of what reads through a
/// `LimitedReader` say nothing of it but the bytes that are left.
pub trait Origin {
    // All bytes that it had, if its type says them.
    ghost text: { Option (List ℕ) };

    // Whether no read of it will fail, as far as its type says.
    ghost is_reliable: { Bool };

    // The borrow of it.
    ghost name: { GName };
}

impl Origin for Brand {
    ghost text = { None };

    ghost is_reliable = { false };

    ghost name = { 0 };
}

/// A port that was lent, and is returned: so it is known to be the same port.
#[derive(Drop)]
pub struct Lent<'a, R> {
    pub port: &'a mut R,
}

/// A reader of the bytes of a port. It fails where the port does, and once it has returned more bytes than a text may have.
#[derive(Drop)]
pub struct LimitedReader<'a, R: ByteIn, T: Origin> {
    port: &'a mut R,
    taken: usize,
    is_at_end: bool,
    of: PhantomData<T>,
    ghost within: { is_within T.text (R.remaining port.now) taken ≡ true },
    ghost whole: { T.is_reliable ≡ true → (R.is_reliable port.now ≡ true) × (R.has_failed port.now ≡ false) },
    ghost same: { port.ghost_name ≡ T.name },
}

impl<'a, R: ByteIn, T: Origin> LimitedReader<'a, R, T> {
    /// None of the bytes of a port.
    pub fn new(port: &'a mut R) -> LimitedReader<'a, R, T>
        requires text { R.remaining port.now ≡ T.text }
        requires whole { T.is_reliable ≡ true → (R.is_reliable port.now ≡ true) × (R.has_failed port.now ≡ false) }
        requires same { port.ghost_name ≡ T.name }
        ensures { left_of T.text (R.remaining result.port.now) result.taken result.is_at_end ≡ T.text }
    {
        LimitedReader {
            port,
            taken: 0,
            is_at_end: false,
            of: PhantomData,
        }
    }

    /// The port alone.
    pub fn into_lent(self) -> Lent<'a, R>
        ensures same { result.port.ghost_name ≡ T.name }
        ensures whole { T.is_reliable ≡ true → R.has_failed result.port.now ≡ false }
    {
        Lent { port: self.port }
    }

    // Why a text is not read to its end: it is too large, or else memory ran out. A failure of the port goes before
    // both; the port itself says whether it failed.
    fn refusal(&self) -> LoadFault
        ensures { (result ≡ LoadFault.NoMemory) ⊎ ((result ≡ LoadFault.TooLarge) × IsOver max_text_bytes T.text) }
    {
        if self.taken > MAX_TEXT_BYTES {
            LoadFault::TooLarge
        } else {
            LoadFault::NoMemory
        }
    }

    // Reads all bytes that are left, if they are not too many, and returns whether it came to their end.
    fn drain(&mut self) -> bool
        ensures known { StaysKnown (left_of T.text (R.remaining self.old.port.now) self.old.taken self.old.is_at_end) (left_of T.text (R.remaining self.new.port.now) self.new.taken self.new.is_at_end) }
        ensures end { result ≡ true → IsAtEnd (left_of T.text (R.remaining self.new.port.now) self.new.taken self.new.is_at_end) }
    {
        let mut chunk = [0u8; 8192];
        for _ in 0..u64::MAX {
            match self.read(&mut chunk) {
                Ok(0) => return true,
                Ok(_) => {}
                Err(_) => return false,
            }
        }
        false
    }

    /// The result for a text that was read so. All of its bytes are read first, unless memory ran out.
    pub fn settle(&mut self, read: Result<Rows, LoadFault>) -> Result<Rows, LoadFault>
        requires { (read ≡ Err LoadFault.NoMemory) ⊎ StaysKnown T.text (left_of T.text (R.remaining self.old.port.now) self.old.taken self.old.is_at_end) }
        ensures { Settles T.text read result }
    {
        if matches!(read, Err(LoadFault::NoMemory)) {
            return Err(self.refusal());
        }
        if !self.drain() || self.taken > MAX_TEXT_BYTES {
            return Err(self.refusal());
        }
        read
    }
}

impl<R: ByteIn, T: Origin> Read for LimitedReader<'_, R, T> {
    ghost remaining = { λ c. left_of T.text (R.remaining c.port.now) c.taken c.is_at_end };

    fn read(&mut self, buf: &mut [u8]) -> io::Result<usize> {
        if self.is_at_end {
            return Ok(0);
        }
        if self.taken > MAX_TEXT_BYTES {
            return Err(io::Error::from(ErrorKind::FileTooLarge));
        }
        match self.port.read(buf) {
            Ok(n) => {
                self.taken += n;
                self.is_at_end = n == 0 && !buf.is_empty();
                Ok(n)
            }
            Err(_) => Err(io::Error::from(ErrorKind::Other)),
        }
    }
}
