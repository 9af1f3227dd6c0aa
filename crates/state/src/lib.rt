// The state of a run: its clock, and the half that words are written to.
#![tactic(auto)]

ghost use Rattle.std.specs.Prelude.{◌≡◌};
ghost use Rattle.kinds.specs.Answers.{Says, if_holds};
ghost use Rattle.state.specs.Clocks.{PossibleClock, read_on, Completes, next_clock};
ghost use Rattle.state.specs.Decisions.{possible_clock?, possible?};
ghost use Rattle.state.specs.States.{clock_of, Possible, next as next_state};

// What every run counts: a, the ticks of the incoming frame so far, and r, the next tick to read, 2^t when idle.
#[derive(Clone, Copy, Debug, PartialEq, Eq)]
pub struct Clock {
    pub a: u32,
    pub r: u32,
}

// "The state has a (ticks of the incoming frame so far), half h (0 or 1), and r (next tick to read, 2^t when idle)" (01).
#[derive(Clone, Copy, Debug, PartialEq, Eq)]
pub struct State {
    pub a: u32,
    pub h: u32,
    pub r: u32,
}

impl Clock {
    pub fn possible(self, ticks: u32) -> bool
        ensures { Says result (PossibleClock ticks self) }
    {
        self.a < ticks && self.a <= self.r && self.r <= ticks
    }

    // Whether a call completes the frame that comes in. None does by an impossible clock.
    pub fn completes(self, ticks: u32, came: bool) -> bool
        ensures { Says result (Completes ticks self came) }
    {
        self.possible(ticks) && came && self.a + 1 == ticks
    }

    // The clock after a call: the reader goes on, blank tick or not, and the tick that completes a frame starts it anew. An impossible clock stays as it is.
    pub fn next(self, ticks: u32, came: bool) -> Clock
        ensures { result ≡ if_holds (possible_clock? ticks self) (next_clock ticks self came) self }
    {
        if !self.possible(ticks) {
            return self;
        }
        let after = self.after_read(ticks);
        if !came {
            return after;
        }
        let a = after.a + 1;
        if a == ticks {
            return Clock { a: 0, r: 0 };
        }
        Clock { a, ..after }
    }

    fn after_read(self, ticks: u32) -> Clock
        ensures { result ≡ read_on ticks self }
    {
        if self.r < ticks {
            return Clock {
                r: self.r + 1,
                ..self
            };
        }
        self
    }
}

impl State {
    fn clock(self) -> Clock
        ensures { result ≡ clock_of self }
    {
        Clock {
            a: self.a,
            r: self.r,
        }
    }

    pub fn possible(self, ticks: u32) -> bool
        ensures { Says result (Possible ticks self) }
    {
        self.h < 2 && self.clock().possible(ticks)
    }

    // The state after a call: its clock's, and the tick that completes a frame turns the halves. An impossible state stays as it is.
    pub fn next(self, ticks: u32, came: &[u32]) -> State
        ensures { result ≡ if_holds (possible? ticks self) (next_state ticks self came.now) self }
    {
        if !self.possible(ticks) {
            return self;
        }
        let clock = self.clock();
        let words = !came.is_empty();
        let after = clock.next(ticks, words);
        let completes = clock.completes(ticks, words);
        State {
            a: after.a,
            h: if completes { 1 - self.h } else { self.h },
            r: after.r,
        }
    }
}
