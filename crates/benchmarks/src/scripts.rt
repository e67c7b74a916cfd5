//! Times `read_script` and `write_script` on the bytes of files, beside counting the line feeds of
//! the same bytes; bench/scripts makes the files.

use crate::timing::{counting, micros};
use anyhow::Error;
use proof_text::{read_script, write_script};
use std::fs;
use std::time::Instant;

const TURNS: u32 = 5;

const MOST: usize = 1 << 31;

/// The number of bytes that are written of the script of the bytes where `writes` is true, 1 where
/// it is false, and 0 where the bytes are no proof text.
fn written(rt: &HostRuntime, bytes: &[u8], writes: bool) -> usize {
    if bytes.len() > MOST {
        return 0;
    }
    match read_script(rt.alloc(), bytes) {
        Ok(script) if writes => match write_script(rt.alloc(), &script) {
            Ok(text) => text.len(),
            Err(_) => 0,
        },
        Ok(_) => 1,
        Err(_) => 0,
    }
}

/// Prints a line for a file: its bytes and those that are written of it, and the microseconds for
/// all turns of reading, and of reading and writing.
fn time_file(rt: &HostRuntime, name: &str) -> Result<(), Error> {
    let out = rt.stdout();
    let bytes = fs::read(rt, name)?;
    let bytes = bytes.as_slice();
    let (lines, counting) = counting(rt, bytes, TURNS)?;
    let start = Instant::now(rt)?;
    for _ in 0..TURNS {
        written(rt, bytes, false);
    }
    let reading = micros(start.elapsed(rt)?);
    let start = Instant::now(rt)?;
    let mut found = 0;
    for _ in 0..TURNS {
        found = written(rt, bytes, true);
    }
    let writing = micros(start.elapsed(rt)?);
    let len = bytes.len();
    let turns = TURNS;
    println!(out;
        "{name} bytes {len} lines {lines} written {found} turns {turns} counting {counting} us reading {reading} us both {writing} us"
    )?;
    Ok(())
}

/// Times each of the files.
pub(crate) fn run(rt: &HostRuntime, files: &[String]) -> Result<(), Error> {
    for name in files {
        time_file(rt, name.as_str())?;
    }
    Ok(())
}
