//! Bytes in and bytes out, each with the memory of whether it has failed.

ghost use Rattle.std.specs.Prelude.{◌≡◌, ◌≤◌, ◌<◌, ◌||◌, ℕ, List, Bool, true, false, Option, IfOk, OnOk, IfErr, IsOk, IsErr, is_err, length};
ghost use Rattle.std.specs.Io.KnownBytes.{Appends, ReadConsumes, WriteAppends};
ghost use Rattle.vx_catalog_bytes.specs.Ports.{IsAll, ExplainsAll};

use std::alloc::{AllocError, Global};
use std::io::{ErrorKind, Read, Write};
use thiserror::Error;

/// A port failed: every later call of it fails too.
#[derive(Clone, Copy, Debug, PartialEq, Eq, Error)]
#[error("the reader or writer failed")]
pub struct Broken;

/// Where bytes come from.
pub trait ByteIn {
    // The bytes that later reads return, where the type knows them.
    ghost remaining: { Self → Option (List ℕ) };

    // Whether a call has failed.
    ghost has_failed: { Self → Bool };

    // Whether no read will fail, as far as the type knows: `false` says nothing.
    ghost is_reliable: { Self → Bool };

    /// Reads bytes into the beginning of `buf`, and returns how many. 0 into a buffer that is not empty is the end.
    fn read(&mut self, buf: &mut [u8]) -> Result<usize, Broken>
        ensures bound { IfOk result (λ n. n ≤ length buf.new) }
        ensures bytes { ReadConsumes (remaining self.old) (remaining self.new) result buf.new }
        ensures fails { has_failed self.new ≡ (has_failed self.old || is_err result) }
        ensures stays { has_failed self.old ≡ true → IsErr result }
        ensures reliable { is_reliable self.old ≡ true → (is_reliable self.new ≡ true) × IsOk result };

    /// Whether a call has failed.
    fn failed(&self) -> bool
        ensures { result ≡ has_failed self.now };
}

/// Where bytes go.
pub trait ByteOut {
    // The bytes that were written, where the type knows them.
    ghost contents: { Self → Option (List ℕ) };

    // Whether a call has failed.
    ghost has_failed: { Self → Bool };

    /// Writes a prefix of `buf`, at least one byte if there is one, and returns its length.
    fn write(&mut self, buf: &[u8]) -> Result<usize, Broken>
        ensures bound { IfOk result (λ n. n ≤ length buf.now) }
        ensures some { IfOk result (λ n. 0 < length buf.now → 0 < n) }
        ensures bytes { WriteAppends (contents self.old) (contents self.new) result buf.now }
        ensures fails { has_failed self.new ≡ (has_failed self.old || is_err result) }
        ensures stays { has_failed self.old ≡ true → IsErr result };

    /// Whether a call has failed.
    fn failed(&self) -> bool
        ensures { result ≡ has_failed self.now };
}

/// Writes all bytes. After an `Err` some of them may have been written.
pub fn write_all<W: ByteOut>(out: &mut W, bytes: &[u8]) -> Result<(), Broken>
    ensures ok { OnOk result (Appends (W.contents out.old) (W.contents out.new) bytes.now) }
    ensures fails { W.has_failed out.new ≡ (W.has_failed out.old || is_err result) }
{
    let mut rest = bytes;
    while !rest.is_empty() {
        let n = out.write(rest)?;
        let (_, after) = rest.split_at(n);
        rest = after;
    }
    Ok(())
}

/// Why not all bytes of a reader were read.
#[derive(Clone, Copy, Debug, PartialEq, Eq, Error)]
pub enum ReadFault {
    /// The reader failed.
    #[error("the reader failed")]
    Broken,
    /// Out of memory.
    #[error("no memory")]
    NoMemory,
    /// There are more bytes than the limit.
    #[error("too many bytes")]
    TooLarge,
}

impl From<AllocError> for ReadFault {
    ghost use Rattle.std.specs.Prelude.{◌≡◌};
    ghost use Rattle.vx_catalog_bytes.specs.declared.bytes.ReadFault.TheVariants.{NoMemory};

    ghost from_gives = { λ _ e. e ≡ NoMemory };

    fn from(_e: AllocError) -> ReadFault {
        ReadFault::NoMemory
    }
}

/// All bytes that a reader has left, if these are `limit` or fewer. It fails if the reader fails or has more bytes,
/// with the error that comes first.
pub fn read_all<R: ByteIn>(
    alloc: Global,
    reader: &mut R,
    limit: usize,
) -> Result<Vec<u8>, ReadFault>
    ensures all { IfOk result (λ v. IsAll (R.remaining reader.old) v.items) }
    ensures small { IfOk result (λ v. length v.items ≤ limit) }
    ensures whole { OnOk result (R.has_failed reader.new ≡ false) }
    ensures err { IfErr result (λ e. ExplainsAll limit (R.remaining reader.old) (R.has_failed reader.new) e) }
    ensures reliable { R.is_reliable reader.old ≡ true → R.has_failed reader.new ≡ false }
{
    let mut bytes = Vec::new(alloc);
    let mut chunk = [0u8; 4096];
    for _ in 0..u64::MAX {
        match reader.read(&mut chunk) {
            Ok(0) => return Ok(bytes),
            Ok(n) => {
                bytes.extend_from_slice(&chunk[..n])?;
                if bytes.len() > limit {
                    return Err(ReadFault::TooLarge);
                }
            }
            Err(_) => return Err(ReadFault::Broken),
        }
    }
    Err(ReadFault::TooLarge)
}

// One read, tried again where the system interrupted it.
fn read_retrying<R: Read>(inner: &mut R, buf: &mut [u8]) -> Result<usize, Broken>
    ensures bound { IfOk result (λ n. n ≤ length buf.new) }
    ensures bytes { ReadConsumes (R.remaining inner.old) (R.remaining inner.new) result buf.new }
{
    for _ in 0..u64::MAX {
        match inner.read(buf) {
            Ok(n) => return Ok(n),
            Err(e) => {
                if e.kind() != ErrorKind::Interrupted {
                    return Err(Broken);
                }
            }
        }
    }
    Err(Broken)
}

// One write, tried again where the system interrupted it.
fn write_retrying<W: Write>(inner: &mut W, buf: &[u8]) -> Result<usize, Broken>
    ensures bound { IfOk result (λ n. n ≤ length buf.now) }
    ensures bytes { WriteAppends (W.contents inner.old) (W.contents inner.new) result buf.now }
{
    for _ in 0..u64::MAX {
        match inner.write(buf) {
            Ok(n) => return Ok(n),
            Err(e) => {
                if e.kind() != ErrorKind::Interrupted {
                    return Err(Broken);
                }
            }
        }
    }
    Err(Broken)
}

/// A port over a reader or a writer of std. A call that was interrupted is tried again.
#[derive(Drop)]
pub struct Real<R> {
    inner: R,
    broken: bool,
}

impl<R> Real<R> {
    /// A port that has not failed.
    pub fn new(inner: R) -> Real<R>
        ensures inner { result.inner ≡ inner }
        ensures whole { result.broken ≡ false }
    {
        Real {
            inner,
            broken: false,
        }
    }
}

impl<R: Read> ByteIn for Real<R> {
    ghost remaining = { λ r. R.remaining r.inner };

    ghost has_failed = { λ r. r.broken };

    ghost is_reliable = { λ _. false };

    fn read(&mut self, buf: &mut [u8]) -> Result<usize, Broken> {
        if self.broken {
            return Err(Broken);
        }
        let result = read_retrying(&mut self.inner, buf);
        self.broken = result.is_err();
        result
    }

    fn failed(&self) -> bool {
        self.broken
    }
}

impl<R: Write> ByteOut for Real<R> {
    ghost contents = { λ r. R.contents r.inner };

    ghost has_failed = { λ r. r.broken };

    fn write(&mut self, buf: &[u8]) -> Result<usize, Broken> {
        if self.broken {
            return Err(Broken);
        }
        match write_retrying(&mut self.inner, buf) {
            Ok(n) if n > 0 || buf.is_empty() => Ok(n),
            _ => {
                self.broken = true;
                Err(Broken)
            }
        }
    }

    fn failed(&self) -> bool {
        self.broken
    }
}
