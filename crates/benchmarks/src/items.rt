//! Times `tokens` and `read_items` on the bytes of files, beside counting the line feeds of the
//! same bytes; bench/items makes the files.

use crate::timing::{counting, micros};
use anyhow::Error;
use std::fs;
use std::time::Instant;
use tptp_grammar::read_items;
use tptp_lexer::tokens;

const TURNS: u32 = 5;

const MOST: usize = 1 << 31;

/// The number of items, and 0 where the bytes are no text of items.
pub(crate) fn items(rt: &HostRuntime, bytes: &[u8]) -> usize {
    if bytes.len() > MOST {
        return 0;
    }
    let Ok(lexed) = tokens(rt.alloc(), bytes) else {
        return 0;
    };
    match read_items(rt.alloc(), &lexed) {
        Ok(items) => items.as_slice().len(),
        Err(_) => 0,
    }
}

/// Prints a line for a file: its bytes and items, and the microseconds for all turns of each.
fn time_file(rt: &HostRuntime, name: &str) -> Result<(), Error> {
    let out = rt.stdout();
    let bytes = fs::read(rt, name)?;
    let bytes = bytes.as_slice();
    let (lines, counting) = counting(rt, bytes, TURNS)?;
    let start = Instant::now(rt)?;
    let mut found = 0;
    for _ in 0..TURNS {
        found = items(rt, bytes);
    }
    let reading = micros(start.elapsed(rt)?);
    let len = bytes.len();
    let turns = TURNS;
    println!(out;
        "{name} bytes {len} lines {lines} items {found} turns {turns} counting {counting} us reading {reading} us"
    )?;
    Ok(())
}

/// Times each of the files.
pub(crate) fn run(rt: &HostRuntime, files: &[String]) -> Result<(), Error> {
    for name in files {
        time_file(rt, name.as_str())?;
    }
    Ok(())
}
