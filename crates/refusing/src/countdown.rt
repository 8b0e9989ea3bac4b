//! Counting requests down to the one that is refused.
ghost use Rattle.std.specs.Prelude.{◌≡◌, ◌-◌, ◌&&◌, nat_eq, not};

/// Requests of which the one of a number, counted from 1, is refused; none where the number is 0.
#[derive(Clone, Copy)]
pub(crate) struct Countdown {
    number: usize,
    /// How many are left up to the refused one, that one included.
    left: usize,
}

impl Countdown {
    pub(crate) fn new(number: usize) -> Countdown
        ensures number { result.number ≡ number }
        ensures left { result.left ≡ number }
    {
        Countdown {
            number,
            left: number,
        }
    }

    /// Counts one more request, and answers whether it is the refused one.
    pub(crate) fn next(&mut self) -> bool
        ensures refused { result ≡ nat_eq self.old.left 1 }
        ensures left { self.new.left ≡ self.old.left - 1 }
        ensures number { self.new.number ≡ self.old.number }
    {
        let refused = self.left == 1;
        self.left = self.left.saturating_sub(1);
        refused
    }

    /// Whether the refused one has come.
    pub(crate) fn is_over(self) -> bool
        ensures { result ≡ (not (nat_eq self.number 0) && nat_eq self.left 0) }
    {
        self.number != 0 && self.left == 0
    }
}
