//! A sheet read whole: header, pairs, sections.

ghost use Rattle.std.specs.Prelude.{◌≡◌, ◌+◌, ◌<◌, ◌≤◌, length, slice_index};
ghost use Rattle.sheets.specs.Layout.{AcceptsLayout};
ghost use Rattle.sheets.specs.Reading.{act_bytes, answered, header_check, in_sheet, pairs_check, part_check, parts, parts_at, read_sheet, section_numbers, sections_check};
ghost use Rattle.sheets.specs.Rules.{header_end, offset};
ghost use Rattle.sheets.specs.Sections.{part};

use crate::fault::SheetFault;
use crate::reader::{Header, Reader, Section};
use crate::section::{SectionRules, start_mask};

/// How many bytes of a sheet are enough to read: one more than the longest has, by which it is known to be too long.
pub const ENOUGH: u64 = 16_385;

/// A sheet: its counts and its start, and the bytes in which its goal and its acts are found. Reading gives one that is
/// laid out by the rules; the questions have an answer on any value.
#[derive(Clone, Copy)]
pub struct Sheet<'a> {
    features: u8,
    acts: u8,
    start: u64,
    goal: &'a [u8],
    bytes: &'a [u8],
}

impl<'a> Sheet<'a> {
    /// Reads a sheet. Refused with the first fault: of the header, then of the pairs, then of the sections in order.
    pub fn read(bytes: &'a [u8]) -> Result<Sheet<'a>, SheetFault>
        ensures answer { answered result ≡ read_sheet bytes.now }
        ensures layout { AcceptsLayout bytes.now (answered result) }
    {
        let header = Header { sheet: bytes };
        check_header(header)?;
        check_pairs(header)?;
        check_sections(header)?;
        Ok(Sheet::over(header))
    }

    // The parts where the header's pairs point.
    fn over(header: Header<'a>) -> Sheet<'a>
        ensures { parts result ≡ parts_at header.entry.sheet.now }
    {
        Sheet {
            features: header.features(),
            acts: header.acts(),
            start: start_mask(header.section(0)),
            goal: header.section(1),
            bytes: header.sheet,
        }
    }

    /// How many features there are.
    pub fn features(&self) -> u8
        ensures { result ≡ self.now.features }
    {
        self.features
    }

    /// How many acts there are.
    pub fn acts(&self) -> u8
        ensures { result ≡ self.now.acts }
    {
        self.acts
    }

    /// The start mask.
    pub fn start(&self) -> u64
        ensures { result ≡ self.now.start }
    {
        self.start
    }

    /// The goal's text.
    pub fn goal(&self) -> &'a [u8]
        ensures { result.now ≡ self.now.goal.now }
    {
        self.goal
    }

    /// The bytes of an act's events; none from the number of acts up.
    pub fn act(&self, i: u8) -> &'a [u8]
        ensures { result.now ≡ act_bytes self.now i }
    {
        if i < self.acts {
            Header { sheet: self.bytes }.section(u16::from(i) + 2)
        } else {
            &[]
        }
    }
}

// Whether length and counts are right and the header has room.
fn check_header(header: Header) -> Result<(), SheetFault>
    ensures { result ≡ header_check header.entry.sheet.now }
{
    if !(2..=16_384).contains(&header.sheet.len()) {
        return Err(SheetFault::Size);
    }
    if !(1..=6).contains(&header.features()) {
        return Err(SheetFault::Features);
    }
    if header.acts() > 16 {
        return Err(SheetFault::Acts);
    }
    if header.sheet.len() < header.end() {
        return Err(SheetFault::Header);
    }
    Ok(())
}

// Whether all pairs are right: each section begins at the end of what is before it or later, and the last ends in the
// sheet.
fn check_pairs(header: Header) -> Result<(), SheetFault>
    ensures { result ≡ pairs_check header.entry.sheet.now (header_end (slice_index header.entry.sheet.now 1)) (section_numbers header.entry.sheet.now) }
{
    let count = header.section_count();
    let mut end = header.end();
    // Each turn goes on where the section before ended, so a chain would carry that end along and read no plainer.
    for number in 0..count {
        if !header.pair_fits(end, number, number + 1 == count) {
            return Err(SheetFault::Pair(number));
        }
        end = header.ending(number);
    }
    Ok(())
}

// Whether a section, the one of that number, is right.
fn check_section(header: Header, number: u16, section: Section) -> Result<(), SheetFault>
    requires { number < 257 }
    ensures { result ≡ in_sheet (number + 1) (offset header.entry.sheet.now number) (part_check (slice_index header.entry.sheet.now 0) (part section.entry)) }
{
    let rules = SectionRules {
        features: header.features(),
    };
    let offset = header.offset(number);
    rules.check(section).map_err(|fault| SheetFault::Section {
        section: number + 1,
        offset,
        fault,
    })
}

// Whether all sections are right, in a sheet that has its whole header.
fn check_sections(header: Header) -> Result<(), SheetFault>
    requires { header_end (slice_index header.sheet.now 1) ≤ length header.sheet.now }
    ensures { result ≡ sections_check header.entry.sheet.now (section_numbers header.entry.sheet.now) }
{
    // By `zip`, since sections are numbered in two bytes.
    for (number, section) in (0..header.section_count()).zip(Reader::new(header.sheet)) {
        check_section(header, number, section)?;
    }
    Ok(())
}
