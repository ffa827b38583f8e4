//! Out of memory. Run with each allocation refused in turn, the text is written as usual, or none of it and the answer is
//! that memory ran out: `tools/refuse-allocations test_wisconsin refused_memory` does so. A test with `ample` in its name
//! makes the same calls once, and passes only where none of its allocations is refused.

use crate::answers::digest;
use std::alloc::Global;
use std::process::Abort;
use std::test::Fail;
use vx_catalog_bytes::Real;
use vx_wisconsin::{GenerateFault, generate};

// The digest of the text of four rows, which one of the cases shows whole.
const FOUR_ROWS: u64 = 12_180_452_288_861_235_279;

// Whether four rows are written, into memory that is there before. If not, memory ran out and nothing was written.
fn is_written<R: Abort>(rt: &R, alloc: Global) -> bool {
    let Ok(mut written) = Vec::<u8>::with_capacity(alloc, 2000) else {
        return false;
    };
    match generate(alloc, 4, &mut Real::new(&mut written)) {
        Ok(()) => {
            assert_eq!(rt; digest(written.as_slice()), FOUR_ROWS);
            true
        }
        Err(fault) => {
            assert_eq!(rt; fault, GenerateFault::NoMemory);
            assert!(rt; written.is_empty());
            false
        }
    }
}

#[test]
fn ample_memory(rt: HostRuntime) -> Result<(), Fail> {
    assert!(rt; is_written(&rt, rt.alloc()));
    Ok(())
}

#[test]
fn refused_memory_is_reported(rt: HostRuntime) -> Result<(), Fail> {
    let first = is_written(&rt, rt.alloc());
    let second = is_written(&rt, rt.alloc());
    assert!(rt;
        first || second,
        "one call after the other ran out of memory"
    );
    Ok(())
}
