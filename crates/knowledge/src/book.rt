//! A knowledge book: the moves of a sheet from cell to cell.

ghost use Rattle.std.specs.Prelude.{◌≡◌, ◌<◌, T, [], length, if◌then◌else◌, is_some, option_map, Some, None, ◌≢◌};
ghost use Rattle.std.specs.List.{slice_get};
ghost use Rattle.sheets.specs.Reading.{act_bytes, read_sheet};
ghost use Rattle.epistemic.specs.Bits.{bit};
ghost use Rattle.epistemic.specs.Cells.{fit};
ghost use Rattle.knowledge.specs.Books.{askable, book_meaning, book_read, bytes_of, class_masks, content, letters, outcomes_at};
ghost use Rattle.knowledge.specs.Claims.{GoalRight, OutcomesRight, SameRight, TextsRead};
ghost use Rattle.knowledge.specs.Moves.{Landed, class_outcome, moves_at};
ghost use Rattle.knowledge.specs.Laws.{book_lawful};

use crate::cell::Cell;
use crate::moves::Move;
use crate::update::nth_nonempty;
use planning::Book;
use sheets::{Sheet, SheetFault};

/// A book over the bytes of a sheet, whose states are cells: masks with bit v set for each valuation v that the agent
/// thinks possible.
#[derive(Clone, Copy)]
pub struct KnowledgeBook<'a> {
    sheet: Sheet<'a>,
}

impl<'a> KnowledgeBook<'a> {
    /// The book of a sheet.
    #[tactic(auto, using(crate::proofs::Meanings::texts_read))]
    pub fn new(sheet: Sheet<'a>) -> KnowledgeBook<'a>
        ensures sheet { result.sheet ≡ sheet.entry }
        ensures texts { TextsRead (content result) }
    {
        KnowledgeBook { sheet }
    }

    /// The book of the sheet that the bytes are. Refused as reading the sheet is, with the first fault.
    pub fn read(bytes: &'a [u8]) -> Result<KnowledgeBook<'a>, SheetFault>
        ensures { book_read result ≡ read_sheet bytes.now }
    {
        Sheet::read(bytes).map(KnowledgeBook::new)
    }

    /// How many features there are: six at most.
    pub fn letters(&self) -> u8
        ensures { result ≡ letters (content self.now) }
    {
        self.sheet.features().min(6)
    }

    // The cell of that mask, if it has only valuations of the book's features.
    fn cell(&self, mask: u64) -> Option<Cell>
        ensures some { is_some result ≡ fit (letters (content self.now)) mask }
        ensures cell { (c : Cell) → result ≡ Some c → (c.letters ≡ letters (content self.now)) × (c.mask ≡ mask) }
    {
        Cell::new(self.letters(), mask)
    }

    // The cell of that mask and the bytes of an act, if there is that act and the mask is a cell of the book's features.
    fn asked(&self, mask: u64, act: u8) -> Option<(Cell, &'a [u8])>
        ensures bytes { bytes_of (option_map (λ x. x.1) result) ≡ (if askable (content self.now) mask act then Some (act_bytes self.now.sheet act) else None) }
        ensures cell { (x : Cell × _) → result ≡ Some x → (x.0.letters ≡ letters (content self.now)) × (x.0.mask ≡ mask) }
    {
        let cell = self.cell(mask)?;
        (act < self.acts()).then_some((cell, self.sheet.act(act)))
    }

    // The new valuations of each class; all empty where the act has no outcomes.
    fn classes(&self, cell: u64, act: u8) -> [u64; 8]
        ensures { result ≡ class_masks (content self.now) cell act }
    {
        self.asked(cell, act)
            .and_then(|(cell, bytes)| cell.updated(bytes))
            .unwrap_or([0; 8])
    }

    /// How many events of an act are possible at a valuation of a cell. None are at a valuation outside the cell, in a
    /// mask that is no cell, and of acts past the last.
    pub fn moves(&self, cell: u64, valuation: u8, act: u8) -> usize
        ensures answer { result ≡ length (moves_at (content self.now) cell valuation act) }
        ensures some { (outcomes_at (content self.now) cell act ≢ []) → T (bit cell valuation) → 0 < result }
    {
        // Not by `map_or`: what `count` asks in its closure does not prove.
        let Some((cell, bytes)) = self.asked(cell, act) else {
            return 0;
        };
        cell.moves(valuation, bytes).count()
    }

    /// The move of that number, from 0, among those of the events of an act that are possible at a valuation of a cell,
    /// in the order of the sheet; nothing past the last.
    pub fn nth_move(&self, cell: u64, valuation: u8, act: u8, number: usize) -> Option<Move>
        ensures answer { result ≡ slice_get (moves_at (content self.now) cell valuation act) number }
        ensures landed { (m : Move) → result ≡ Some m → Landed (content self.now) cell valuation act m }
    {
        let (cell, bytes) = self.asked(cell, act)?;
        cell.moves(valuation, bytes).nth(number)
    }

    /// The outcome of an act in a cell by its class; empty if the class has none.
    pub fn class_outcome(&self, cell: u64, act: u8, class: u8) -> u64
        ensures { result ≡ class_outcome (content self.now) cell act class }
    {
        self.classes(cell, act)
            .get(usize::from(class))
            .copied()
            .unwrap_or(0)
    }
}

/// What the book answers of cells.
impl Book for KnowledgeBook<'_> {
    type State = u64;

    ghost meaning = { λ b. book_meaning (content b) };

    ghost lawful = { λ b. book_lawful (content b) };

    fn start(&self) -> u64 {
        self.sheet.start()
    }

    #[tactic(auto, using(crate::proofs::Contents::count_is))]
    fn acts(&self) -> u8 {
        self.sheet.acts().min(16)
    }

    fn outcome(&self, s: u64, act: u8, number: u8) -> Option<u64>
        ensures answer { result ≡ slice_get ((book_meaning (content self.now)).outcomes s act) number }
        ensures right { OutcomesRight (content self.now) s act }
    {
        nth_nonempty(&self.classes(s, act), number)
    }

    fn goal(&self, s: u64) -> bool
        ensures answer { result ≡ (book_meaning (content self.now)).goal s }
        ensures right { GoalRight (content self.now) s result }
    {
        let goal = self.sheet.goal();
        self.cell(s).is_some_and(|cell| cell.satisfies(goal))
    }

    #[tactic(auto, using(crate::proofs::Meanings::same_right))]
    fn same(&self, s: u64, t: u64) -> bool
        ensures answer { result ≡ (book_meaning (content self.now)).same s t }
        ensures right { SameRight (content self.now) s t result }
    {
        s == t
    }
}
