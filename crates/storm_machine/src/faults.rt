//! Which event of a run the disk failed.

/// At which event the disk failed a run, and what came of it.
#[derive(Clone, Copy)]
pub struct Strike {
    /// How many events that may need the disk came before it.
    pub at: u64,
    /// Whether what the event was to store was stored all the same.
    pub taken: bool,
    /// Whether the disk fails each later event too.
    pub ever: bool,
}

/// What the disk does in a run.
#[derive(Drop)]
pub struct Faults {
    strike: Option<Strike>,
    events: u64,
    struck: bool,
    taken: bool,
    faulted: bool,
}

impl Faults {
    /// The disk of a run that has had no event yet. Without a strike it serves.
    pub fn of(strike: Option<Strike>) -> Faults {
        Faults {
            strike,
            events: 0,
            struck: false,
            taken: false,
            faulted: false,
        }
    }

    /// Whether the disk fails the next event that may need it, which is had with that.
    pub fn strikes(&mut self) -> bool {
        let Some(strike) = self.strike else {
            return false;
        };
        let is_first = self.events == strike.at;
        let fails = is_first || (self.struck && strike.ever);
        self.events = self.events.saturating_add(1);
        self.struck = self.struck || is_first;
        self.taken = is_first && strike.taken;
        self.faulted = self.faulted || fails;
        fails
    }

    /// Whether what the last event was to store was stored, where the disk failed it.
    pub fn is_taken(&self) -> bool {
        self.taken
    }

    /// Whether the disk failed an event since the store was opened.
    pub fn is_faulted(&self) -> bool {
        self.faulted
    }

    /// Whether the disk failed an event of the run.
    pub fn has_struck(&self) -> bool {
        self.struck
    }

    /// Whether the run had the event of the strike, where there is one.
    pub fn is_complete(&self) -> bool {
        self.struck || self.strike.is_none()
    }

    /// The store was opened.
    pub fn heal(&mut self) {
        self.faulted = false;
    }
}
