//! Bytes of a source in a buffer.

ghost use Rattle.std.specs.Prelude.{◌≡◌, ◌≤◌, ◌<◌, ◌+◌, drop, length, true, false, IfOk, OnOk, IsOkUnless, vec_len};
ghost use Rattle.std.specs.Io.KnownBytes.{IsAtEnd};
ghost use Rattle.vx_catalog_loading.specs.Reading.{Moves};

use std::io::Read;
use vx_catalog::LoadFault;

// The most bytes that are read at a time.
const CHUNK: usize = 64 << 10;

// Reads bytes of a source once, behind those of a buffer, and returns how many.
fn read_once<S: Read>(
    source: &mut S,
    buffer: &mut Vec<u8>,
    chunk: &mut [u8],
) -> Result<usize, LoadFault>
    ensures len { IfOk result (λ n. vec_len buffer.new ≡ vec_len buffer.old + n) }
    ensures bytes { OnOk result (Moves buffer.old.items (S.remaining source.old) buffer.new.items (S.remaining source.new)) }
    ensures end { IfOk result (λ n. n ≡ 0 → 0 < length chunk.old → IsAtEnd (S.remaining source.new)) }
    ensures err { IsOkUnless result LoadFault.NoMemory }
{
    let Ok(n) = source.read(chunk) else {
        return Err(LoadFault::NoMemory);
    };
    buffer.extend_from_slice(&chunk[..n])?;
    Ok(n)
}

/// Reads bytes of `source` behind those of `buffer`, until `buffer` has `size` bytes. Returns whether the source came to its end
/// before. It fails with NoMemory if the source does: whoever owns the source asks it why.
pub fn fill<S: Read>(source: &mut S, buffer: &mut Vec<u8>, size: usize) -> Result<bool, LoadFault>
    ensures bytes { OnOk result (Moves buffer.old.items (S.remaining source.old) buffer.new.items (S.remaining source.new)) }
    ensures end { IfOk result (λ is_at_end. is_at_end ≡ true → IsAtEnd (S.remaining source.new)) }
    ensures full { IfOk result (λ is_at_end. is_at_end ≡ false → size ≤ vec_len buffer.new) }
    ensures err { IsOkUnless result LoadFault.NoMemory }
{
    let mut chunk = [0u8; CHUNK];
    for _ in 0..u64::MAX {
        let len = buffer.len();
        if len >= size {
            return Ok(false);
        }
        let most = CHUNK.min(size - len);
        if read_once(source, buffer, &mut chunk[..most])? == 0 {
            return Ok(true);
        }
    }
    Err(LoadFault::NoMemory)
}

/// Drops the first bytes of a buffer.
pub fn drop_front(buffer: &mut Vec<u8>, count: usize)
    requires { count ≤ vec_len buffer.old }
    ensures { buffer.new.items ≡ drop count buffer.old.items }
{
    let len = buffer.len();
    buffer.copy_within(count..len, 0);
    buffer.truncate(len - count);
}
