//! Events, as the bytes of an act spell them one after another.

ghost use Rattle.std.specs.Iterator.{YieldsFirstBy, item_count};
ghost use Rattle.std.specs.Prelude.{◌≡◌, ◌≤◌, length};
ghost use Rattle.sheets.specs.Events.{entry, entry_and_rest, events_of, first_event};

/// One event of an act. Its bytes are class, set, clear and length, then the condition's text.
#[derive(Clone, Copy)]
pub struct Event<'a> {
    /// Which of the act's outcomes the event belongs to.
    pub class: u8,
    /// The features that become true, bit i for letter i.
    pub set: u8,
    /// The features that become false.
    pub clear: u8,
    /// The text of the formula that holds where the event is possible.
    pub condition: &'a [u8],
}

/// The event that begins the bytes, with the bytes after it; nothing if the bytes end before the event does.
pub fn first_event<'a>(bytes: &'a [u8]) -> Option<(Event<'a>, &'a [u8])>
    ensures { entry_and_rest result ≡ first_event bytes.now }
{
    match bytes {
        [class, set, clear, n, rest @ ..] if rest.len() >= usize::from(*n) => {
            let (condition, after) = rest.split_at(usize::from(*n));
            let event = Event {
                class: *class,
                set: *set,
                clear: *clear,
                condition,
            };
            Some((event, after))
        }
        _ => None,
    }
}

/// Goes through the events that some bytes begin with, up to the first that is cut short.
#[derive(Clone, Copy)]
pub struct Events<'a> {
    rest: &'a [u8],
}

impl<'a> Events<'a> {
    /// The events of the bytes, from the first on. There are no more of them than bytes.
    #[tactic(auto, using(crate::proofs::Splitting::events_few))]
    pub fn new(bytes: &'a [u8]) -> Events<'a>
        ensures bytes { result.rest.now ≡ bytes.now }
        ensures few { length (events_of bytes.now) ≤ length bytes.now }
    {
        Events { rest: bytes }
    }
}

impl<'a> Iterator for Events<'a> {
    type Item = Event<'a>;

    ghost next_gives = { YieldsFirstBy entry (λ e. events_of e.rest.now) };

    ghost remaining = { item_count (λ e. events_of e.rest.now) };

    #[tactic(auto, using(crate::proofs::Splitting::events_more))]
    fn next(&mut self) -> Option<Event<'a>> {
        let (event, rest) = first_event(self.rest)?;
        self.rest = rest;
        Some(event)
    }
}
