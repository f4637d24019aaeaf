//! Reads sheets at the edges of the rules and prints what is told of each: the parts' counts, or stop, number, section
//! and place.

#![tactic(auto)]

use anyhow::Context;
use sheets::Sheet;
use std::alloc::{AllocError, Global};
use std::io;

const START: &[u8] = b"\x03\0\0\0\0\0\0\0";

const EVENT: &[u8] = b"\0\0\0\x01T";

// Where the first section of a sheet of one act begins.
const HEADER_END: u16 = 14;

// What a sheet of one act says.
#[derive(Clone, Copy)]
struct Parts<'a> {
    features: u8,
    start: &'a [u8],
    goal: &'a [u8],
    act: &'a [u8],
}

// A sheet by the rules.
impl Default for Parts<'_> {
    fn default() -> Self {
        Parts {
            features: 2,
            start: START,
            goal: b"T",
            act: EVENT,
        }
    }
}

impl Parts<'_> {
    // The sheet, whose sections follow its header without gaps.
    fn lay_out(self, heap: Global) -> anyhow::Result<Vec<u8>> {
        let mut sheet = vec![in heap; self.features, 1]?;
        let mut offset = HEADER_END;
        for section in [self.start, self.goal, self.act] {
            let size = u16::try_from(section.len())?;
            sheet.extend_from_slice(&offset.to_le_bytes())?;
            sheet.extend_from_slice(&size.to_le_bytes())?;
            offset = offset
                .checked_add(size)
                .context("a section begins too late for its pair")?;
        }
        for section in [self.start, self.goal, self.act] {
            sheet.extend_from_slice(section)?;
        }
        Ok(sheet)
    }

    fn tell(self, rt: &(impl Print + AllocGlobal), name: &str) -> anyhow::Result<()> {
        let sheet = self.lay_out(rt.alloc())?;
        tell(rt, name, &sheet)?;
        Ok(())
    }
}

// What is told of a sheet.
fn tell(rt: &impl Print, name: &str, sheet: &[u8]) -> io::Result<()> {
    // Not by `?`: a refusal is what there is to tell.
    match Sheet::read(sheet) {
        Ok(read) => {
            let features = read.features();
            let acts = read.acts();
            println!(rt; "{name}: {features} features, {acts} acts")
        }
        Err(fault) => println!(rt; "{name}: {fault}"),
    }
}

// What is told of a right sheet with one byte changed.
fn tell_changed(
    rt: &(impl Print + AllocGlobal),
    name: &str,
    place: usize,
    byte: u8,
) -> anyhow::Result<()> {
    let mut sheet = Parts::default().lay_out(rt.alloc())?;
    if let Some(changed) = sheet.get_mut(place) {
        *changed = byte;
    }
    tell(rt, name, &sheet)?;
    Ok(())
}

// A right sheet followed by bytes that are no part of it, so many in all.
fn tell_long(rt: &(impl Print + AllocGlobal), name: &str, size: usize) -> anyhow::Result<()> {
    let mut sheet = Parts::default().lay_out(rt.alloc())?;
    sheet.resize(size, 0)?;
    tell(rt, name, &sheet)?;
    Ok(())
}

fn sizes(rt: &(impl Print + AllocGlobal)) -> anyhow::Result<()> {
    let short: [(&str, &[u8]); 5] = [
        ("0 bytes", b""),
        ("1 byte", b"\x02"),
        ("2 bytes", b"\x02\x01"),
        ("2 bytes, 7 features", b"\x07\x01"),
        (
            "13 bytes of a header of 14",
            b"\x02\x01\x0e\0\x08\0\x16\0\x01\0\x17\0\x05",
        ),
    ];
    for (name, sheet) in short {
        tell(rt, name, sheet)?;
    }
    tell_long(rt, "16384 bytes", 16_384)?;
    tell_long(rt, "16385 bytes", 16_385)
}

fn counts(rt: &(impl Print + AllocGlobal)) -> anyhow::Result<()> {
    tell_changed(rt, "0 features", 0, 0)?;
    tell_changed(rt, "7 features", 0, 7)?;
    tell_changed(rt, "17 acts", 1, 17)?;
    tell(rt, "7 features and 17 acts", b"\x07\x11")?;
    Ok(())
}

fn pairs(rt: &(impl Print + AllocGlobal)) -> anyhow::Result<()> {
    let changes = [
        ("start one too low", 2, 13),
        ("goal one too low", 6, 21),
        ("act one too low", 10, 22),
        ("act ends at the sheet's end", 12, 5),
        ("act ends one past the sheet", 12, 6),
        ("goal runs into the act", 8, 2),
    ];
    for (name, place, byte) in changes {
        tell_changed(rt, name, place, byte)?;
    }
    Ok(())
}

fn starts(rt: &(impl Print + AllocGlobal)) -> anyhow::Result<()> {
    let starts: [(&str, u8, &[u8]); 6] = [
        ("start of 7 bytes", 2, b"\x03\0\0\0\0\0\0"),
        ("start mask 0", 2, &[0; 8]),
        ("start mask 8 of 2 features", 2, b"\x08\0\0\0\0\0\0\0"),
        ("start mask 16 of 2 features", 2, b"\x10\0\0\0\0\0\0\0"),
        ("start mask of all bits of 6 features", 6, &[255; 8]),
        (
            "start mask of bit 32 of 5 features",
            5,
            b"\0\0\0\0\x01\0\0\0",
        ),
    ];
    for (name, features, start) in starts {
        let parts = Parts {
            features,
            start,
            ..Parts::default()
        };
        parts.tell(rt, name)?;
    }
    Ok(())
}

// A formula of so many negations.
fn negations(heap: Global, count: usize) -> Result<Vec<u8>, AllocError> {
    let mut text = vec![in heap; b'!'; count]?;
    text.push(b'T')?;
    Ok(text)
}

fn formulas(rt: &(impl Print + AllocGlobal)) -> anyhow::Result<()> {
    let most = negations(rt.alloc(), 199)?;
    let over = negations(rt.alloc(), 200)?;
    let goals: [(&str, &[u8]); 9] = [
        ("goal of 0 bytes", b""),
        ("goal of 1 byte", b"a"),
        ("goal of 200 bytes", &most),
        ("goal of 201 bytes", &over),
        ("goal &a", b"&a"),
        ("goal ab", b"ab"),
        ("goal b of 2 letters", b"b"),
        ("goal c of 2 letters", b"c"),
        ("goal |KaM!b", b"|KaM!b"),
    ];
    for (name, goal) in goals {
        let parts = Parts {
            goal,
            ..Parts::default()
        };
        parts.tell(rt, name)?;
    }
    Ok(())
}

fn events(rt: &(impl Print + AllocGlobal)) -> anyhow::Result<()> {
    let most = EVENT.repeat(rt.alloc(), 16)?;
    let over = EVENT.repeat(rt.alloc(), 17)?;
    let acts: [(&str, &[u8]); 17] = [
        ("no event", b""),
        ("16 events", &most),
        ("17 events", &over),
        ("class 7", b"\x07\0\0\x01T"),
        ("class 8", b"\x08\0\0\x01T"),
        ("set 3 of 2 features", b"\0\x03\0\x01T"),
        ("set 4 of 2 features", b"\0\x04\0\x01T"),
        ("clear 4 of 2 features", b"\0\0\x04\x01T"),
        ("set and clear apart", b"\0\x01\x02\x01T"),
        ("set and clear meet", b"\0\x03\x02\x01T"),
        ("condition of 0 bytes", b"\0\0\0\0"),
        ("second condition unfinished", b"\0\0\0\x01T\0\0\0\x02!!"),
        ("second event cut after 1 byte", b"\0\0\0\x01T\0"),
        ("second event cut after 2 bytes", b"\0\0\0\x01T\0\0"),
        ("second event cut after 3 bytes", b"\0\0\0\x01T\0\0\0"),
        ("second event cut after 4 bytes", b"\0\0\0\x01T\0\0\0\x02"),
        ("second event cut after 5 bytes", b"\0\0\0\x01T\0\0\0\x02!"),
    ];
    for (name, act) in acts {
        let parts = Parts {
            act,
            ..Parts::default()
        };
        parts.tell(rt, name)?;
    }
    Ok(())
}

fn main(rt: HostRuntime) -> anyhow::Result<()> {
    sizes(&rt)?;
    counts(&rt)?;
    pairs(&rt)?;
    starts(&rt)?;
    formulas(&rt)?;
    events(&rt)
}
