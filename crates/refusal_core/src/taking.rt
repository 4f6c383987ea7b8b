//! Takes all memory, so that each further request is refused, with any allocator.

use std::alloc::{AllocError, Global};

// More blocks of one size than can exist.
const MANY: usize = 1_000_000;

/// Takes all memory that the process can address: blocks of each size, from 2^45 bytes down to one, until one is
/// refused. Until they are dropped, each request is refused. Nothing is written to them, so almost no physical memory
/// is used.
pub fn take_all(alloc: Global) -> Result<Vec<Vec<u8>>, AllocError> {
    let mut blocks = Vec::with_capacity(alloc, MANY)?;
    for power in 0..46u32 {
        take_blocks(alloc, 1 << (45 - power), &mut blocks)?;
    }
    Ok(blocks)
}

// Takes blocks of this many bytes until one is refused.
fn take_blocks(alloc: Global, size: usize, blocks: &mut Vec<Vec<u8>>) -> Result<(), AllocError> {
    for _ in 0..MANY {
        match Vec::with_capacity(alloc, size) {
            Ok(block) => blocks.push(block)?,
            Err(_) => break,
        }
    }
    Ok(())
}
