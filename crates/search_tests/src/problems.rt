use include_flat::flatten;
use io_core::MemoryFiles;
use logic_core::Problem;
use std::alloc::Global;

/// The problem that a text has, and none where it is refused.
pub(crate) fn problem_of(alloc: Global, text: &[u8]) -> Option<Problem> {
    let mut files = MemoryFiles::new(alloc);
    files.insert(b"x.p", text).ok()?;
    flatten(alloc, &mut files, b"x.p").ok()
}
