//! How many lines of each kind a log has in a second.
ghost use Rattle.std.specs.Prelude.{◌≡◌, ◌≤◌, ◌<◌, ◌+◌, ◌-◌, ◌^◌, min, None, IfSome};
ghost use Rattle.session_log.specs.inner.Untold.{joined};

/// How many lines of a second tell that something was refused, or that a client was turned away.
const FEW: u64 = 10;

/// How many lines of a second tell that a session starts, or ends.
const MANY: u64 = 100;

/// What has no line of its own: so many lines, and the steps that they would have reported.
#[derive(Clone, Copy, Debug, PartialEq, Eq)]
pub struct Untold {
    pub lines: u64,
    pub steps: u64,
}

impl Untold {
    /// Nothing.
    pub fn nothing() -> Self
        ensures { result ≡ record { lines = 0; steps = 0 } }
    {
        Untold { lines: 0, steps: 0 }
    }

    /// This and more.
    pub fn and(self, more: Untold) -> Untold
        ensures { result ≡ joined self more }
    {
        Untold {
            lines: self.lines.saturating_add(more.lines),
            steps: self.steps.saturating_add(more.steps),
        }
    }
}

/// How many lines of one kind a second may have, how many the last second had, and what had none
/// since the last that was written.
#[derive(Clone, Copy, Debug, PartialEq, Eq)]
pub struct Pace {
    most: u64,
    second: u64,
    written: u64,
    untold: Untold,
    ghost some: { 1 ≤ most },
    ghost few: { written ≤ most },
}

impl Pace {
    /// No line yet, of a kind with ten a second.
    pub fn few() -> Self
        ensures most { result.most ≡ 10 }
        ensures none { (result.written ≡ 0) × (result.untold ≡ record { lines = 0; steps = 0 }) }
    {
        Pace {
            most: FEW,
            second: 0,
            written: 0,
            untold: Untold::nothing(),
        }
    }

    /// No line yet, of a kind with a hundred a second.
    pub fn many() -> Self
        ensures most { result.most ≡ 100 }
        ensures none { (result.written ≡ 0) × (result.untold ≡ record { lines = 0; steps = 0 }) }
    {
        Pace {
            most: MANY,
            second: 0,
            written: 0,
            untold: Untold::nothing(),
        }
    }

    /// Notes something of this second that took so many steps: whether it has a line, and what
    /// before it had none.
    pub fn tell(&mut self, second: u64, steps: u64) -> Option<Untold>
        ensures reported { IfSome result (λ u. (u ≡ self.old.untold) × (self.new.untold ≡ record { lines = 0; steps = 0 })) }
        ensures counted { result ≡ None → self.new.untold ≡ joined self.old.untold (record { lines = 1; steps = steps }) }
        ensures full { result ≡ None → (self.new.written ≡ self.old.most) × (self.old.second ≡ second) }
        ensures second { self.new.second ≡ second }
        ensures most { self.new.most ≡ self.old.most }
        ensures same { self.old.second ≡ second → self.old.written ≤ self.new.written }
    {
        if self.second != second {
            self.second = second;
            self.written = 0;
        }
        if self.written == self.most {
            self.untold = self.untold.and(Untold { lines: 1, steps });
            return None;
        }
        let untold = self.untold;
        self.written += 1;
        self.untold = Untold::nothing();
        Some(untold)
    }

    /// Takes back what a line would have reported that could not be written.
    pub fn take_back(&mut self, untold: Untold)
        ensures untold { self.new.untold ≡ joined self.old.untold untold }
        ensures same { (self.new.most ≡ self.old.most) × (self.new.second ≡ self.old.second)
            × (self.new.written ≡ self.old.written) }
    {
        self.untold = self.untold.and(untold);
    }

    /// What had no line since the last that was written.
    pub fn untold(&self) -> Untold
        ensures { result ≡ self.now.untold }
    {
        self.untold
    }
}
