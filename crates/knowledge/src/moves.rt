//! Where the events of an act lead from one valuation of a cell.

ghost use Rattle.std.specs.Prelude.{◌≡◌, ◌≤◌, length};
ghost use Rattle.std.specs.Iterator.{YieldsFirst, item_count};
ghost use Rattle.sheets.specs.Events.{entry};
ghost use Rattle.epistemic.specs.Acts.{moved};
ghost use Rattle.knowledge.specs.Acting.{act_of, event_of};
ghost use Rattle.knowledge.specs.Moves.{moves_of, possible_at};

use crate::cell::{Cell, has};
use sheets::{Event, Events};

/// Where an event leads: the outcome that the agent sees, by its class, and the new valuation.
#[derive(Clone, Copy)]
pub struct Move {
    /// The event's class.
    pub class: u8,
    /// The valuation after the event.
    pub valuation: u8,
}

// Goes through the moves from a valuation of a cell, by those events of an act that are possible there.
#[derive(Clone, Copy)]
pub(crate) struct Moves<'a> {
    cell: Cell,
    valuation: u8,
    events: Events<'a>,
}

impl Iterator for Moves<'_> {
    type Item = Move;

    ghost next_gives = { YieldsFirst (λ m. moves_of m.cell.letters m.cell.mask m.valuation (act_of m.cell.letters m.events.rest.now)) };

    ghost remaining = { item_count (λ m. moves_of m.cell.letters m.cell.mask m.valuation (act_of m.cell.letters m.events.rest.now)) };

    fn next(&mut self) -> Option<Move> {
        let cell = self.cell;
        let valuation = self.valuation;
        let event = self
            .events
            .find(|event| cell.possible_at(valuation, *event))?;
        Some(Move {
            class: event.class % 8,
            valuation: cell.moved(valuation, event),
        })
    }
}

impl Cell {
    // The moves from a valuation of the cell by the act that the bytes spell.
    pub(crate) fn moves<'a>(self, valuation: u8, act: &'a [u8]) -> Moves<'a>
        ensures moves { moves_of result.cell.letters result.cell.mask result.valuation (act_of result.cell.letters result.events.rest.now) ≡ moves_of self.letters self.mask valuation (act_of self.letters act.now) }
        ensures few { length (moves_of self.letters self.mask valuation (act_of self.letters act.now)) ≤ length act.now }
    {
        Moves {
            cell: self,
            valuation,
            events: Events::new(act),
        }
    }

    // Whether the event is possible at the valuation, which lies in the cell.
    fn possible_at(self, valuation: u8, event: Event<'_>) -> bool
        ensures { result ≡ possible_at self.letters self.mask valuation (event_of self.letters (entry event.entry)) }
    {
        has(self.part(event.condition).mask, valuation)
    }

    // The valuation after the event.
    fn moved(self, valuation: u8, event: Event<'_>) -> u8
        ensures { result ≡ moved self.letters (event_of self.letters (entry event.entry)) valuation }
    {
        (valuation & !event.clear | event.set) & ((1 << self.letters) - 1)
    }
}
