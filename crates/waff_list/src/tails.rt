//! The tail of each message: how many ticks of work hang on it.

ghost use Rattle.std.specs.Prelude.{◌≡◌, ℕ, ◌+◌, ◌-◌, ◌^◌, ◌<◌, ◌≤◌, max, length, slice_set, All, Contains, IfOk};
ghost use Rattle.waff_model.specs.Numbers.{IsAmongFirst};
ghost use Rattle.waff_model.specs.declared.limits.TheConstants.{MAX_MESSAGES};
ghost use Rattle.waff_plan.specs.Obeys.{AwaitsEarlier};
ghost use Rattle.waff_plan.specs.Timing.{IsTiming, awaits_by, work_of};
ghost use Rattle.waff_plan.specs.Work.{IsAwaited, gap_after};
ghost use Rattle.waff_plan.specs.declared.timing.Awaited.TheVariants.{Every};
ghost use Rattle.waff_list.specs.Planning.{Fits};
ghost use Rattle.waff_list.specs.Tails.{AreRaised, tail_of};
ghost use Rattle.waff_list.specs.Services.{AreTailsBy};
ghost use Rattle.waff_list.specs.Telling.{basis_of};

use crate::service::Service;
use std::alloc::{AllocError, Global};
use waff_model::Await;
use waff_plan::Timing;

/// The tail of each message, in ticks: its cost and the greatest of the tails of those that it holds
/// back, each with the ticks that have to lie between. By number it holds back those that need it,
/// by issue those that await it, each by its gap.
pub(crate) fn tails(
    alloc: Global,
    service: &Service,
    timings: &[Timing],
) -> Result<Vec<u64>, AllocError>
    requires few { length timings.now ≤ MAX_MESSAGES }
    requires small { All IsTiming timings.now }
    requires earlier { AwaitsEarlier (work_of timings.now) }
    requires fits { Fits service.now (work_of timings.now) }
    ensures count { IfOk result (λ tails. length tails.items ≡ length timings.now) }
    ensures tails { IfOk result (λ tails.
        AreTailsBy (basis_of service.now) (work_of timings.now) (tail_of tails.items)) }
{
    let mut tails = vec![in alloc; 0; timings.len()]?;
    for m in (1..timings.len() as u32 + 1).rev() {
        let timing = &timings[m as usize - 1];
        let tail = tails[m as usize - 1] + u64::from(timing.cost);
        tails[m as usize - 1] = tail;
        match service {
            Service::ByNumber(needs) => raise(&mut tails, needs.of(m), tail),
            Service::ByIssue(_) => raise_awaited(&mut tails, timing, tail),
        }
    }
    Ok(tails)
}

/// Raises the tails of these messages to at least this one.
fn raise(tails: &mut [u64], messages: &[u32], tail: u64)
    requires { All (IsAmongFirst (length tails.old)) messages.now }
    ensures { AreRaised tails.old (Contains messages.now) (λ m. 0) tail tails.new }
{
    for m in messages {
        raise_to(tails, *m, tail);
    }
}

/// Raises the tail of each message that one with this timing and this tail awaits, to at least its gap and this
/// tail.
fn raise_awaited(tails: &mut [u64], timing: &Timing, tail: u64)
    requires numbers { (m : ℕ) → IsAwaited (awaits_by Every timing.now) m
        → IsAmongFirst (length tails.old) m }
    requires short { tail + 2 ^ 32 < 2 ^ 64 }
    ensures { AreRaised tails.old (IsAwaited (awaits_by Every timing.now))
        (λ m. gap_after m (awaits_by Every timing.now)) tail tails.new }
{
    let after = timing.after.as_slice();
    for k in (0..after.len()).rev() {
        let Await { message, gap } = after[k];
        raise_to(tails, message, u64::from(gap) + tail);
    }
    if timing.follows != 0 {
        raise_to(tails, timing.follows, u64::from(timing.think) + tail);
    }
}

/// Raises the tail of message `m` to at least this one.
fn raise_to(tails: &mut [u64], m: u32, tail: u64)
    requires { IsAmongFirst (length tails.old) m }
    ensures { tails.new ≡ slice_set tails.old (m - 1) (max (tail_of tails.old m) tail) }
{
    let raised = tails[m as usize - 1].max(tail);
    tails[m as usize - 1] = raised;
}
