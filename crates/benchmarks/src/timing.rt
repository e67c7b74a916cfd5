use anyhow::Error;
use std::time::{Duration, Instant};

/// The microseconds of a time, and 1 for less than one.
pub(crate) fn micros(time: Duration) -> u128 {
    let micros = time.as_micros();
    if micros == 0 { 1 } else { micros }
}

/// The number of line feeds.
fn feeds(bytes: &[u8]) -> usize {
    bytes.iter().filter(|byte| **byte == b'\n').count()
}

/// The number of line feeds of the bytes, and the microseconds for counting them in so many turns.
pub(crate) fn counting(rt: &HostRuntime, bytes: &[u8], turns: u32) -> Result<(usize, u128), Error> {
    let start = Instant::now(rt)?;
    let mut lines = 0;
    for _ in 0..turns {
        lines = feeds(bytes);
    }
    Ok((lines, micros(start.elapsed(rt)?)))
}
