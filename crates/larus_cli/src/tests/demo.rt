//! `demo`.

use super::running::assert_ends;
use io_core::MemoryFiles;
use std::test::Fail;

#[test]
fn a_demonstration_checks_made_texts(rt: HostRuntime) -> Result<(), Fail> {
    let rows: [(&[u8], &[u8]); 2] = [
        (
            b"2",
            b"demo 2: problem 126 bytes, proof 121 bytes, accepted 4\n",
        ),
        (
            b"10000",
            b"demo 10000: problem 486728 bytes, proof 357849 bytes, accepted 10002\n",
        ),
    ];
    for (number, text) in rows {
        // it asks for no file
        let files = MemoryFiles::new(rt.alloc());
        assert_ends(&rt, rt.alloc(), &[b"demo", number], files, (0, text, b""))?;
    }
    Ok(())
}
