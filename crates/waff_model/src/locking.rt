//! Whether the cells of a space have locks.

ghost use Rattle.std.specs.Prelude.{◌≡◌};
ghost use Rattle.waff_model.specs.Layout.{are_locked};

/// Whether the cells of a space have locks, a lock each, and who may use one at once.
#[derive(Clone, Copy, PartialEq)]
pub enum Locking {
    /// There are none.
    Unlocked,
    /// One message at once.
    Exclusive,
    /// Messages that only read the cell together; one that writes it alone.
    Shared,
}

impl Locking {
    /// Whether there are locks.
    pub fn are_some(self) -> bool
        ensures { result ≡ are_locked self }
    {
        !matches!(self, Locking::Unlocked)
    }
}
