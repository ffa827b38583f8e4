//! The bytes of a port one after another, with the line of the next one.

ghost use Rattle.std.specs.Prelude.{◌≡◌, ◌≤◌, ◌<◌, ◌⊎◌, ◌+◌, length, option_map, IfOk, OnOk, true, false};
ghost use Rattle.std.specs.Io.KnownBytes.{IsAtEnd, Keeps, prepend_known};
ghost use Rattle.csv.specs.Reading.{strip_bom};
ghost use Rattle.volcano_locations.specs.Lines.{line_after, left_in, Gives, has_mark};

use crate::fault::PlaceFault;
use std::alloc::Global;
use vx_catalog_bytes::ByteIn;

// The bytes of the byte order mark.
const MARK: usize = 3;

/// The bytes of a port, one after another.
#[derive(Drop)]
pub struct ByteSource<R> {
    port: R,
    chunk: Vec<u8>,
    at: usize,
    line: u64,
}

// Whether bytes begin with the byte order mark.
fn has_mark(bytes: &[u8]) -> bool
    ensures { result ≡ has_mark bytes.now }
{
    match bytes {
        [0xEF, 0xBB, 0xBF, ..] => true,
        _ => false,
    }
}

// Adds bytes that a port has left to a chunk, and returns how many; 0 is the end.
fn fill<R: ByteIn>(port: &mut R, chunk: &mut Vec<u8>) -> Result<usize, PlaceFault>
    ensures more { IfOk result (λ n. length chunk.new.items ≡ length chunk.old.items + n) }
    ensures bytes { OnOk result (Keeps (prepend_known chunk.old.items (R.remaining port.old)) (prepend_known chunk.new.items (R.remaining port.new))) }
    ensures end { IfOk result (λ n. n ≡ 0 → IsAtEnd (R.remaining port.new)) }
{
    let mut buffer = [0u8; 4096];
    let n = port.read(&mut buffer)?;
    chunk.extend_from_slice(&buffer[..n])?;
    Ok(n)
}

// The first bytes of a port: those of a byte order mark at least, or all.
fn front_of<R: ByteIn>(alloc: Global, port: &mut R) -> Result<Vec<u8>, PlaceFault>
    ensures bytes { IfOk result (λ chunk. Keeps (R.remaining port.old) (prepend_known chunk.items (R.remaining port.new))) }
    ensures enough { IfOk result (λ chunk. (3 ≤ length chunk.items) ⊎ IsAtEnd (R.remaining port.new)) }
{
    let mut chunk = Vec::new(alloc);
    while chunk.len() < MARK {
        if fill(port, &mut chunk)? == 0 {
            return Ok(chunk);
        }
    }
    Ok(chunk)
}

impl<R: ByteIn + Drop> ByteSource<R> {
    /// The bytes of a port that follow a byte order mark, if it begins with one.
    pub fn new(alloc: Global, port: R) -> Result<ByteSource<R>, PlaceFault>
        ensures bytes { IfOk result (λ s. Keeps (option_map strip_bom (R.remaining port)) (left_in R.remaining s)) }
        ensures line { IfOk result (λ s. s.line ≡ 1) }
    {
        let mut port = port;
        let chunk = front_of(alloc, &mut port)?;
        let at = if has_mark(chunk.as_slice()) { MARK } else { 0 };
        Ok(ByteSource {
            port,
            chunk,
            at,
            line: 1,
        })
    }

    /// The line of the next byte, counted from 1.
    pub fn line(&self) -> u64
        ensures { result ≡ self.now.line }
    {
        self.line
    }

    // Reads the next chunk, and returns whether there is one.
    fn refill(&mut self) -> Result<bool, PlaceFault>
        requires { length self.old.chunk.items ≤ self.old.at }
        ensures kept { OnOk result (Keeps (left_in R.remaining self.old) (left_in R.remaining self.new)) }
        ensures line { self.new.line ≡ self.old.line }
        ensures more { IfOk result (λ is_more. is_more ≡ true → self.new.at < length self.new.chunk.items) }
        ensures end { IfOk result (λ is_more. is_more ≡ false → IsAtEnd (left_in R.remaining self.new)) }
    {
        self.chunk.clear();
        self.at = 0;
        Ok(fill(&mut self.port, &mut self.chunk)? > 0)
    }

    /// The next byte, if there is one. After an `Err` nothing is known of the source.
    pub fn next(&mut self) -> Result<Option<u8>, PlaceFault>
        ensures byte { IfOk result (λ o. Gives (left_in R.remaining self.old) (left_in R.remaining self.new) o) }
        ensures line { IfOk result (λ o. self.new.line ≡ line_after self.old.line o) }
    {
        if self.at >= self.chunk.len() && !self.refill()? {
            return Ok(None);
        }
        let byte = self.chunk[self.at];
        self.at += 1;
        if byte == b'\n' {
            match self.line.checked_add(1) {
                Some(line) => self.line = line,
                None => return Err(PlaceFault::Unreadable),
            }
        }
        Ok(Some(byte))
    }
}
