//! Whether a plan has two messages that exclude each other and run at a common tick, whichever
//! starts first.

ghost use Rattle.std.specs.Prelude.{◌<◌, ◌↔◌, length, All, IfOk, IsTrue};
ghost use Rattle.waff_assign.specs.Case.{pairs_of};
ghost use Rattle.waff_plan.specs.Apart.{AreApart};
ghost use Rattle.waff_plan.specs.Obeys.{IsAmong};
ghost use Rattle.waff_plan.specs.Planned.{planned_starts, planned_work};

use crate::Planned;
use crate::ordered::{Pairs, keeps};
use crate::sequence::by_start;
use std::alloc::{AllocError, Global};

/// Whether no message of the first `count` runs at a common tick with a later one that excludes it,
/// whichever starts first. The messages are looked at by their starts: with those of the first that
/// started before it, and then, where it is one of the first itself, with the others that did.
pub fn keeps_apart(alloc: Global, planned: &Planned<'_>, count: u32) -> Result<bool, AllocError>
    ensures { IfOk result (λ apart. IsTrue apart
        ↔ AreApart (IsAmong count (pairs_of planned.now.case))
        (planned_work planned.now) (planned_starts planned.now)) }
{
    let messages = planned.plan.len();
    let started = Some(by_start(alloc, planned.plan)?);
    let first = Pairs {
        from: 1,
        to: count,
        last: messages,
    };
    if !keeps(alloc, planned, &started, first)? {
        return Ok(false);
    }
    if messages <= count {
        return Ok(true);
    }
    let others = Pairs {
        from: count + 1,
        to: messages,
        last: count,
    };
    keeps(alloc, planned, &started, others)
}
