//! Ports for bytes, over memory that fails at a byte and over readers and writers of std.

ghost use Rattle.std.specs.Prelude.{◌<◌, ◌≤◌, length};

use crate::expect::{Wrong, expect, told};
use std::alloc::Global;
use vx_catalog_bytes::{
    Broken, ByteIn, ByteOut, MemoryIn, MemoryOut, ReadFault, Real, read_all, write_all,
};

// Compares all bytes of the reader `reader`, of which there may be `limit`, with the text `wanted`.
fn compare_read<R: ByteIn>(
    alloc: Global,
    reader: &mut R,
    limit: usize,
    wanted: &[u8],
) -> Result<(), Wrong> {
    match read_all(alloc, reader, limit) {
        Ok(bytes) => expect(alloc, bytes.as_slice(), wanted, "read"),
        Err(ReadFault::NoMemory) => Err(Wrong::NoMemory),
        Err(ReadFault::Broken) => expect(alloc, b"Broken", wanted, "read"),
        Err(ReadFault::TooLarge) => expect(alloc, b"TooLarge", wanted, "read"),
    }
}

// A reader of the text `text` that fails after `count` bytes says so, and then in each call.
fn compare_broken(alloc: Global, text: &[u8], count: usize) -> Result<(), Wrong> {
    let mut reader = MemoryIn::new(text, Some(count));
    compare_read(alloc, &mut reader, text.len(), b"Broken")?;
    if !reader.failed() || reader.read(&mut [0]) != Err(Broken) {
        return Err(told(alloc, "the reader goes on"));
    }
    Ok(())
}

/// Reads the bytes of the text `text`, which are the text `wanted`: all of them where as many are allowed, none where fewer
/// are, or where the reader fails after some or after all.
pub fn compare_reads(alloc: Global, text: &[u8], wanted: &[u8]) -> Result<(), Wrong> {
    for count in 0..text.len() {
        compare_read(alloc, &mut MemoryIn::new(text, None), count, b"TooLarge")?;
        compare_broken(alloc, text, count)?;
    }
    compare_broken(alloc, text, text.len())?;
    compare_read(alloc, &mut MemoryIn::new(text, None), text.len(), wanted)?;
    compare_read(alloc, &mut Real::new(text), text.len(), wanted)
}

// A writer with room for the first `room` bytes of the text `text` has these, says that it failed, and then says so in each
// call.
fn compare_room(alloc: Global, text: &[u8], room: usize) -> Result<(), Wrong>
    requires { room ≤ length text.now }
{
    let mut writer = MemoryOut::new(alloc, 2, room);
    if write_all(&mut writer, text) != Err(Broken) || !writer.failed() {
        return Err(told(alloc, "all was written"));
    }
    if writer.write(b"") != Err(Broken) {
        return Err(told(alloc, "the writer goes on"));
    }
    expect(alloc, writer.bytes(), &text[..room], "written")
}

/// Writes the bytes of the text `text`, which are the text `wanted`: with room for fewer the writer fails, and over a writer
/// of std, and with room for all, it does not.
pub fn compare_writes(alloc: Global, text: &[u8], wanted: &[u8]) -> Result<(), Wrong> {
    for room in 0..text.len() {
        compare_room(alloc, text, room)?;
    }
    let mut whole = MemoryOut::new(alloc, 2, text.len());
    let mut real = Real::new(Vec::new(alloc));
    if write_all(&mut whole, text) != Ok(()) || write_all(&mut real, text) != Ok(()) {
        return Err(told(alloc, "a writer failed"));
    }
    if whole.failed() || real.failed() {
        return Err(told(alloc, "a writer says that it failed"));
    }
    expect(alloc, whole.bytes(), wanted, "written")
}
