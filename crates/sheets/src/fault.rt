//! What is wrong with a sheet, and where: a formula's fault lies inside a section's, and that inside the sheet's.

ghost use Rattle.std.specs.Prelude.{◌≡◌, Some};
ghost use Rattle.sheets.specs.Stops.{formula_place, section_number, section_place, stop_line, stop_number, stop_place, stop_section};

use std::error::Error;
use std::fmt;

/// Why a text is not one whole formula. Places count from the text's first byte.
#[derive(Clone, Copy, Debug, PartialEq, Eq)]
pub enum FormulaFault {
    /// The text has over 200 bytes.
    TooLong,
    /// The byte at this place is no sign, or a letter past the last.
    Wrong(u8),
    /// A whole formula ends before this place, and a byte follows.
    Spare(u8),
    /// The text stops at this place, before its formula is whole.
    Unfinished(u8),
}

impl FormulaFault {
    /// The fault's place in the text; 0 if the text is too long.
    pub fn place(self) -> u8
        ensures { result ≡ formula_place self }
    {
        match self {
            FormulaFault::TooLong => 0,
            FormulaFault::Wrong(place)
            | FormulaFault::Spare(place)
            | FormulaFault::Unfinished(place) => place,
        }
    }
}

/// What is wrong with a section. Places count from the section's first byte.
#[derive(Clone, Copy, Debug, PartialEq, Eq)]
pub enum SectionFault {
    /// The start has not eight bytes, or its mask is 0 or has a bit for no valuation.
    Start,
    /// The event at this place is cut short, has a class, set or clear against the rule, or is a seventeenth; or there is
    /// no event at all.
    Event(u16),
    /// The formula at this place, the goal or an event's condition.
    Formula { at: u16, fault: FormulaFault },
}

impl SectionFault {
    /// The stop's number: 4 for the start, 5 for a formula, 6 for an event.
    pub fn number(self) -> u8
        ensures { result ≡ section_number self }
    {
        match self {
            SectionFault::Start => 4,
            SectionFault::Event(_) => 6,
            SectionFault::Formula { .. } => 5,
        }
    }

    /// The fault's place in the section.
    pub fn place(self) -> u32
        ensures { result ≡ section_place self }
    {
        match self {
            SectionFault::Start => 0,
            SectionFault::Event(at) => u32::from(at),
            SectionFault::Formula { at, fault } => u32::from(at) + u32::from(fault.place()),
        }
    }
}

/// Why a sheet is refused.
#[derive(Clone, Copy, Debug, PartialEq, Eq)]
pub enum SheetFault {
    /// The sheet has under 2 or over 16,384 bytes.
    Size,
    /// The number of features is not 1 to 6.
    Features,
    /// There are over 16 acts.
    Acts,
    /// The sheet is shorter than its header.
    Header,
    /// The section of this pair, from 0, begins before the end of what is before it, or is the last and ends past the
    /// sheet.
    Pair(u16),
    /// A section's fault: the section's number, 1 for the start, 2 for the goal and 3 on for the acts, and its offset.
    Section {
        section: u16,
        offset: u16,
        fault: SectionFault,
    },
}

impl SheetFault {
    /// The stop's number, 1 to 6.
    pub fn number(self) -> u8
        ensures { result ≡ stop_number self }
    {
        match self {
            SheetFault::Size | SheetFault::Header => 1,
            SheetFault::Features | SheetFault::Acts => 2,
            SheetFault::Pair(_) => 3,
            SheetFault::Section { fault, .. } => fault.number(),
        }
    }

    /// The stop's section: 0 for the header, 1 for the start, 2 for the goal, 3 on for the acts.
    pub fn section(self) -> u16
        ensures { result ≡ stop_section self }
    {
        match self {
            SheetFault::Section { section, .. } => section,
            _ => 0,
        }
    }

    /// The stop's place, from the sheet's first byte.
    pub fn place(self) -> u32
        ensures { result ≡ stop_place self }
    {
        match self {
            SheetFault::Size | SheetFault::Features | SheetFault::Header => 0,
            SheetFault::Acts => 1,
            SheetFault::Pair(k) => 2 + 4 * u32::from(k),
            SheetFault::Section { offset, fault, .. } => u32::from(offset) + fault.place(),
        }
    }
}

/// `stop` with the stop's number, section and place.
impl fmt::Display for SheetFault {
    ghost output = { λ fault. Some (stop_line fault) };

    fn fmt<W: fmt::Write>(&self, f: &mut fmt::Formatter<W>) -> fmt::Result {
        let number = self.number();
        let section = self.section();
        let place = self.place();
        write!(f, "stop {number} {section} {place}")
    }
}

impl Error for SheetFault {}
