//! Which of several faults is told: the one of least rank, the first of those of one rank.

ghost use Rattle.std.specs.Prelude.{ℕ, ◌≡◌};
ghost use Rattle.waff_parse.specs.Refusals as refusals;

/// A fault with a rank: the number that decides where several faults hold.
pub trait Ranked {
    ghost rank: { Self → ℕ };

    /// The rank; the least one counts.
    fn rank(&self) -> u32
        ensures { result ≡ rank self.now };
}

/// The fault of least rank, the first of two of one rank.
pub fn least<F: Ranked + Drop>(a: F, b: F) -> F
    ensures { result ≡ refusals.least F.rank a b }
{
    if a.rank() <= b.rank() { a } else { b }
}

/// Two readings side by side: both values, or the fault of least rank.
pub fn pair<A: Drop, B: Drop, F: Ranked + Drop>(
    a: Result<A, F>,
    b: Result<B, F>,
) -> Result<(A, B), F>
    ensures { result ≡ refusals.pair F.rank a b }
{
    match (a, b) {
        (Ok(x), Ok(y)) => Ok((x, y)),
        (Ok(_), Err(e)) => Err(e),
        (Err(e), Ok(_)) => Err(e),
        (Err(d), Err(e)) => Err(least(d, e)),
    }
}
