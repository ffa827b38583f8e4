//! The stack of the program, which it takes before it works.

use std::alloc::{AllocError, Global};

// How many bytes of stack the deepest plan needs, and some more.
const STACK: usize = 480 * 1024;

// How many bytes of it each call of `has_frames` takes, and some more.
const FRAME: usize = 4 * 1024;

// How many bytes of address space are to be left beside them.
const BESIDE: usize = 64 * 1024;

// Whether so many further frames, each below the other, hold what is written into them. Each call writes into the frame above it: so no
// compiler makes one frame of several, or takes a frame before the call that asks for it.
fn has_frames(count: usize, number: usize, above: &mut [u8]) -> bool {
    let mut frame = [0u8; FRAME];
    let place = number % FRAME;
    frame[place] = 1;
    if count > 0 && !has_frames(count - 1, number, &mut frame) {
        return false;
    }
    if let Some(last) = above.last_mut() {
        *last = frame[place];
    }
    frame[place] > 0
}

/// Makes the stack as large as any plan needs it, and fails where there is no address space for that. Without this the system
/// ends the program once it comes to a deep plan. The number is any that the compiler does not know.
pub fn take_stack(alloc: Global, number: usize) -> Result<(), AllocError> {
    // an allocation fails, where a stack that cannot grow ends the program
    let room: Vec<u8> = Vec::with_capacity(alloc, STACK + BESIDE)?;
    drop(room);
    if has_frames(STACK / FRAME, number, &mut []) {
        return Ok(());
    }
    Err(AllocError)
}
