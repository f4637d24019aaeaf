//! Sections judged one by one: the start's mask, the goal's formula, an act's events.

ghost use Rattle.std.specs.Prelude.{◌≡◌, ◌^◌, ◌<◌, nat_lt};
ghost use Rattle.sheets.specs.Events.{entry};
ghost use Rattle.sheets.specs.Reading.{act_check, event_check, formula_check, part_check, start_check};
ghost use Rattle.sheets.specs.Rules.{fields_fit, mask_of, start_fits};
ghost use Rattle.sheets.specs.Sections.{part};

use crate::event::{Event, Events};
use crate::fault::SectionFault;
use crate::formula::check_formula;
use crate::reader::Section;
use std::array;

// The mask of the first eight bytes, the low byte first; bytes past the end are 0.
pub(crate) fn start_mask(bytes: &[u8]) -> u64
    ensures { result ≡ mask_of bytes.now }
{
    u64::from_le_bytes(array::from_fn(|place| bytes.get(place).copied().unwrap_or(0)))
}

// The rules for the sections of a sheet of so many features.
#[derive(Clone, Copy)]
pub(crate) struct SectionRules {
    pub(crate) features: u8,
}

impl SectionRules {
    // Whether a section is right; refused with its first fault.
    pub(crate) fn check(self, section: Section) -> Result<(), SectionFault>
        ensures { result ≡ part_check self.features (part section.entry) }
    {
        match section {
            Section::Start(bytes) => self.check_start(bytes),
            Section::Goal(bytes) => self.check_text(bytes, 0),
            Section::Act(bytes) => self.check_act(bytes),
        }
    }

    // Whether the mask has a bit, and none from 2^features up.
    fn mask_fits(self, mask: u64) -> bool
        ensures { result ≡ start_fits self.features mask }
    {
        mask > 0 && (self.features >= 6 || mask >> (1u32 << self.features) == 0)
    }

    // Whether the bytes are a start mask by the rule.
    fn check_start(self, bytes: &[u8]) -> Result<(), SectionFault>
        ensures { result ≡ start_check self.features bytes.now }
    {
        if bytes.len() == 8 && self.mask_fits(start_mask(bytes)) {
            Ok(())
        } else {
            Err(SectionFault::Start)
        }
    }

    // Whether the bytes, from a place of the section on, are one whole formula.
    fn check_text(self, bytes: &[u8], at: u16) -> Result<(), SectionFault>
        ensures { result ≡ formula_check self.features at bytes.now }
    {
        check_formula(bytes, self.features).map_err(|fault| SectionFault::Formula { at, fault })
    }

    // Whether the bits of a mask are all of features.
    fn holds(self, mask: u8) -> bool
        ensures { result ≡ nat_lt mask (2 ^ self.features) }
    {
        self.features >= 8 || mask >> self.features == 0
    }

    // Whether class, set and clear of an event are by the rule.
    fn fields_fit(self, event: Event) -> bool
        ensures { result ≡ fields_fit self.features (entry event.entry) }
    {
        let Event {
            class,
            set,
            clear,
            ..
        } = event;
        class <= 7 && self.holds(set) && self.holds(clear) && set & clear == 0
    }

    // Whether the event at a place of the section is right: its fields, then its condition.
    fn check_event(self, event: Event, at: u16) -> Result<(), SectionFault>
        requires { at < 65000 }
        ensures { result ≡ event_check self.features at (entry event.entry) }
    {
        if !self.fields_fit(event) {
            return Err(SectionFault::Event(at));
        }
        self.check_text(event.condition, at + 4)
    }

    // Whether the bytes are one to sixteen right events.
    fn check_act(self, bytes: &[u8]) -> Result<(), SectionFault>
        ensures { result ≡ act_check self.features bytes.now }
    {
        // Counted along, since an event does not know where it begins.
        let mut at: u16 = 0;
        for event in Events::new(bytes).take(16) {
            self.check_event(event, at)?;
            at += 4 + event.condition.len() as u16;
        }
        if !bytes.is_empty() && usize::from(at) == bytes.len() {
            Ok(())
        } else {
            Err(SectionFault::Event(at))
        }
    }
}
