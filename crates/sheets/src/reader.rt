//! A sheet by its header: its counts, and its sections, found by the header's pairs.

ghost use Rattle.std.specs.Iterator.{MakesProgress, YieldsFirstBy, item_count};
ghost use Rattle.std.specs.Prelude.{◌≡◌, ◌+◌, ◌^◌, ◌<◌, ⊤, true, if◌then◌else◌, slice_index};
ghost use Rattle.sheets.specs.Reading.{pair_fits};
ghost use Rattle.sheets.specs.Rules.{ending as ending_at, header_end, offset as offset_at, section_bytes, section_count, size as size_at, word as word_at};
ghost use Rattle.sheets.specs.Sections.{handed, has_section, named, part, section_of, sections_from};

/// A section of a sheet by name: the sheet's own bytes.
#[derive(Clone, Copy)]
pub enum Section<'a> {
    /// The start mask.
    Start(&'a [u8]),
    /// The goal's text.
    Goal(&'a [u8]),
    /// The events of an act.
    Act(&'a [u8]),
}

// A sheet, read by its header: two counts, and for each section a pair of offset and size. Bytes past the end read as 0.
#[derive(Clone, Copy)]
pub(crate) struct Header<'a> {
    pub(crate) sheet: &'a [u8],
}

impl<'a> Header<'a> {
    // The byte at a place, 0 past the end.
    fn byte(self, place: usize) -> u8
        ensures { result ≡ slice_index self.entry.sheet.now place }
    {
        self.sheet.get(place).copied().unwrap_or(0)
    }

    // The number of the two bytes at a place, the low one first.
    fn word(self, place: usize) -> u16
        requires { place < 2 ^ 32 }
        ensures { result ≡ word_at self.entry.sheet.now place }
    {
        u16::from_le_bytes([self.byte(place), self.byte(place + 1)])
    }

    // How many features there are.
    pub(crate) fn features(self) -> u8
        ensures { result ≡ slice_index self.entry.sheet.now 0 }
    {
        self.byte(0)
    }

    // How many acts there are.
    pub(crate) fn acts(self) -> u8
        ensures { result ≡ slice_index self.entry.sheet.now 1 }
    {
        self.byte(1)
    }

    // How many sections there are: the start, the goal and the acts.
    pub(crate) fn section_count(self) -> u16
        ensures count { result ≡ section_count (slice_index self.entry.sheet.now 1) }
        ensures few { result < 258 }
    {
        u16::from(self.acts()) + 2
    }

    // Where the header ends.
    pub(crate) fn end(self) -> usize
        ensures { result ≡ header_end (slice_index self.entry.sheet.now 1) }
    {
        2 + 4 * usize::from(self.section_count())
    }

    // Where the section of that number begins.
    pub(crate) fn offset(self, number: u16) -> u16
        ensures { result ≡ offset_at self.entry.sheet.now number }
    {
        self.word(2 + 4 * usize::from(number))
    }

    // How many bytes the section of that number has.
    fn size(self, number: u16) -> u16
        ensures { result ≡ size_at self.entry.sheet.now number }
    {
        self.word(2 + 4 * usize::from(number) + 2)
    }

    // Where the section of that number ends.
    pub(crate) fn ending(self, number: u16) -> usize
        ensures { result ≡ ending_at self.entry.sheet.now number }
    {
        usize::from(self.offset(number)) + usize::from(self.size(number))
    }

    // Whether the pair's section begins at the end of what is before it or later, and if it is the last, ends in the sheet.
    pub(crate) fn pair_fits(self, end: usize, number: u16, last: bool) -> bool
        ensures { result ≡ pair_fits self.entry.sheet.now end number last }
    {
        end <= usize::from(self.offset(number))
            && (!last || self.ending(number) <= self.sheet.len())
    }

    // The bytes of the section of that number, as far as the sheet has them.
    pub(crate) fn section(self, number: u16) -> &'a [u8]
        ensures { result.now ≡ section_bytes self.entry.sheet.now number }
    {
        let from = usize::from(self.offset(number));
        let size = usize::from(self.size(number));
        let rest = self.sheet.get(from..).unwrap_or(&[]);
        rest.get(..size).unwrap_or(rest)
    }

    // Whether the sheet has that section, and its header the section's pair.
    fn has_section(self, number: u16) -> bool
        ensures answer { result ≡ has_section self.entry.sheet.now number }
        ensures few { result ≡ true → number < 257 }
    {
        number < self.section_count() && 2 + 4 * (usize::from(number) + 1) <= self.sheet.len()
    }
}

// The section of that number, the first two by their names.
fn name_section<'a>(number: u16, bytes: &'a [u8]) -> Section<'a>
    ensures { part result ≡ named number bytes.now }
{
    match number {
        0 => Section::Start(bytes),
        1 => Section::Goal(bytes),
        _ => Section::Act(bytes),
    }
}

/// Goes through the sections of a sheet in order: the start, the goal, the acts. It ends after the last, or where the
/// header has no pair for one. A section is cut off where the sheet ends.
#[derive(Clone, Copy)]
pub struct Reader<'a> {
    sheet: &'a [u8],
    place: u16,
}

impl<'a> Reader<'a> {
    /// A reader before the first section.
    pub fn new(sheet: &'a [u8]) -> Reader<'a>
        ensures sheet { result.sheet ≡ sheet.entry }
        ensures place { result.place ≡ 0 }
    {
        Reader { sheet, place: 0 }
    }
}

impl<'a> Iterator for Reader<'a> {
    type Item = Section<'a>;

    ghost next_gives = { YieldsFirstBy part (λ r. sections_from r.sheet.now r.place) };

    ghost remaining = { item_count (λ r. sections_from r.sheet.now r.place) };

    #[tactic(auto, using(crate::proofs::Walking::sections_more, crate::proofs::Walking::sections_none))]
    fn next(&mut self) -> Option<Section<'a>>
        ensures steps { YieldsFirstBy part (λ r. sections_from r.sheet.now r.place) self.old result self.new }
        ensures goes { MakesProgress (λ _. ⊤) (item_count (λ r. sections_from r.sheet.now r.place)) self.old result self.new }
        ensures answer { handed result ≡ section_of self.old.sheet.now self.old.place }
        ensures sheet { self.new.sheet ≡ self.old.sheet }
        ensures place { self.new.place ≡ (if has_section self.old.sheet.now self.old.place then self.old.place + 1 else self.old.place) }
    {
        let place = self.place;
        let header = Header { sheet: self.sheet };
        if !header.has_section(place) {
            return None;
        }
        self.place = place + 1;
        Some(name_section(place, header.section(place)))
    }
}
