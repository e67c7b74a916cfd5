use logic_core::{Bytes, List, Memory};
use std::alloc::Global;
use std::env::{Env, FillError};

/// The greatest number of times that a buffer for a word is doubled.
const MOST_DOUBLINGS: u32 = 20;

/// The word with this number on the command line, byte for byte, and `None` behind the last one.
/// `Memory` is want of memory, and a word above 4 GiB is told as such.
fn word_at<R: Env>(rt: &R, alloc: Global, number: usize) -> Result<Option<Bytes>, Memory> {
    let mut size = 4096usize;
    for _ in 0..MOST_DOUBLINGS {
        let mut buffer = vec![in alloc; 0u8; size]?;
        match rt.arg(number, &mut buffer) {
            Ok(len) => return Ok(Some(Bytes::from_slice(alloc, &buffer[..len])?)),
            Err(FillError::NotPresent) => return Ok(None),
            Err(FillError::TooLong) => size = size.saturating_mul(2),
        }
    }
    Err(Memory)
}

/// The words after the program's name, byte for byte. `Memory` is want of memory.
pub(crate) fn words<R: Env>(rt: &R, alloc: Global) -> Result<List<Bytes>, Memory> {
    let mut words = List::new(alloc);
    for number in 1..usize::MAX {
        match word_at(rt, alloc, number)? {
            Some(word) => words.push(word)?,
            None => break,
        }
    }
    Ok(words)
}
