//! Sheets as long as they may be, and longer.

use crate::run;
use std::alloc::Global;
use std::test::Fail;

// A start that is a goal, and no acts.
const MENDED: &[u8; 19] = b"\x02\0\x0a\0\x08\0\x12\0\x01\0\x0c\0\0\0\0\0\0\0b";

// Whether the sheet is accepted when zeros follow it, so many bytes in all, and what is written.
fn told(heap: Global, size: usize) -> anyhow::Result<(bool, Vec<u8>)> {
    let mut sheet = Vec::from_slice(heap, MENDED)?;
    sheet.resize(size, 0)?;
    let mut text = Vec::new(heap);
    let accepted = run(heap, sheet.as_slice(), &mut text)?;
    Ok((accepted, text))
}

#[test]
fn a_sheet_may_have_16384_bytes(rt: HostRuntime) -> Result<(), Fail> {
    for (size, accepted, text) in [
        (16_384usize, true, "found 0 1 2\n0 0 -\n"),
        (16_385, false, "stop 1 0 0\n"),
        (40_000, false, "stop 1 0 0\n"),
    ] {
        let (is_accepted, written) = told(rt.alloc(), size).map_err(|_| Fail::new(
            "memory is short",
        ))?;
        assert_eq!(rt; is_accepted, accepted);
        assert!(rt; written.as_slice() == text.as_bytes());
    }
    Ok(())
}
