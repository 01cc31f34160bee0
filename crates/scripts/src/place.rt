// The reader's place in a script, and a guard over it.
ghost use Rattle.std.specs.Prelude.{◌≡◌, if◌then◌else◌};
ghost use Rattle.scripts.specs.Reading.{place_left};

/// Puts the reader back to where it stood first, unless the command that it has read since is accepted.
pub struct PlaceGuard<'p> {
    /// Where the reader stands.
    pub place: &'p mut usize,

    /// Where it stood first.
    pub first: usize,

    /// Whether the command is accepted.
    pub accepted: bool,
}

impl Drop for PlaceGuard<'_> {
    fn drop(self)
        ensures { place_left self.exit ≡ (if self.entry.accepted then self.entry.place.now else self.entry.first) }
    {
        if !self.accepted {
            *self.place = self.first;
        }
        let PlaceGuard {
            place: _,
            first: _,
            accepted: _,
        } = self;
    }
}
