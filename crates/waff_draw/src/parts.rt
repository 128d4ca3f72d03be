//! The part of a plan that a picture shows.

ghost use Rattle.std.specs.Prelude.{◌≡◌, ◌^◌, ◌<◌, ◌≤◌, IfSome};
ghost use Rattle.std.proofs.Props.{props};

/// The ticks that a picture shows: from the one up to the other, at least one. Where the other is
/// not given they end with the plan, or with the first where the plan ended before.
#[derive(Clone, Copy)]
pub struct Part {
    pub from: u64,
    pub to: Option<u64>,
    pub ghost some: { IfSome to (λ end. from < end) } by { Prim.hlevel props },
}

impl Part {
    ghost use Rattle.waff_draw.specs.Parts.{end_of};

    /// Where the part of a plan of this length ends.
    pub(crate) fn end(self, length: u64) -> u128
        ensures end { result ≡ end_of self length }
        ensures behind { self.from < result }
        ensures small { result ≤ 2 ^ 64 }
    {
        match self.to {
            Some(to) => u128::from(to),
            None => u128::from(length).max(u128::from(self.from) + 1),
        }
    }
}
