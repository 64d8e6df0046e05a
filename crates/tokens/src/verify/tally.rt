//! Counting signers until it is known whether they are enough.
ghost use Rattle.std.specs.Prelude.{◌≡◌, ◌-◌, max, cond};
ghost use Rattle.tokens.specs.Code.Deciding.{decided};

/// How many more signers are wanted, and how many keys are left to ask.
#[derive(Drop)]
pub(crate) struct Tally {
    wanted: usize,
    left: usize,
}

impl Tally {
    /// Before a key is asked. At least so many signers are wanted, and at least one.
    pub(crate) fn new(least: usize, keys: usize) -> Tally
        ensures wanted { result.wanted ≡ max least 1 }
        ensures left { result.left ≡ keys }
    {
        Tally {
            wanted: least.max(1),
            left: keys,
        }
    }

    /// Counts a key that was asked. Returns whether there are enough signers, once it is known.
    pub(crate) fn count(&mut self, signed: bool) -> Option<bool>
        ensures wanted { self.new.wanted ≡ self.old.wanted - cond signed 1 0 }
        ensures left { self.new.left ≡ self.old.left - 1 }
        ensures decided { result ≡ decided self.new.wanted self.new.left }
    {
        if signed {
            self.wanted = self.wanted.saturating_sub(1);
        }
        self.left = self.left.saturating_sub(1);
        if self.wanted == 0 {
            Some(true)
        } else if self.left < self.wanted {
            Some(false)
        } else {
            None
        }
    }
}
