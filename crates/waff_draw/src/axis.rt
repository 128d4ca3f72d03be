//! The axis: round numbers of ticks.

ghost use Rattle.std.specs.Prelude.{◌≡◌, ◌+◌, ◌*◌, ◌^◌, ◌<◌, ◌≤◌};
ghost use Rattle.waff_draw.specs.Axis.{first_step, line_at, multiple_from, step_of};

/// Round numbers, as far as plans may be long.
const ROUND: [u64; 46] = [
    1,
    2,
    5,
    10,
    20,
    50,
    100,
    200,
    500,
    1_000,
    2_000,
    5_000,
    10_000,
    20_000,
    50_000,
    100_000,
    200_000,
    500_000,
    1_000_000,
    2_000_000,
    5_000_000,
    10_000_000,
    20_000_000,
    50_000_000,
    100_000_000,
    200_000_000,
    500_000_000,
    1_000_000_000,
    2_000_000_000,
    5_000_000_000,
    10_000_000_000,
    20_000_000_000,
    50_000_000_000,
    100_000_000_000,
    200_000_000_000,
    500_000_000_000,
    1_000_000_000_000,
    2_000_000_000_000,
    5_000_000_000_000,
    10_000_000_000_000,
    20_000_000_000_000,
    50_000_000_000_000,
    100_000_000_000_000,
    200_000_000_000_000,
    500_000_000_000_000,
    1_000_000_000_000_000,
];

/// Line `i` of the axis of so many ticks from this one on, counted from 0.
pub(crate) fn line_at(from: u64, span: u128, i: u32) -> u128
    requires some { 0 < span }
    requires small { span ≤ 2 ^ 64 }
    ensures line { result ≡ line_at from span i }
    ensures from { from ≤ result }
{
    let step = step(span);
    multiple_from(step, from) + u128::from(i) * step
}

/// The least multiple of a step that is not below a tick.
fn multiple_from(step: u128, tick: u64) -> u128
    requires some { 0 < step }
    requires small { step ≤ 2 ^ 64 }
    ensures multiple { result ≡ multiple_from step tick }
    ensures from { tick ≤ result }
    ensures near { result < tick + step }
{
    (u128::from(tick) + step - 1) / step * step
}

/// The least round number of which ten steps reach the length.
fn step(length: u128) -> u128
    requires { length ≤ 2 ^ 64 }
    ensures step { result ≡ step_of length }
    ensures reaches { length ≤ 10 * result }
    ensures small { result ≤ 2 ^ 64 }
{
    first_step(length, &ROUND)
}

/// The first of the steps of which ten reach the length, and the length itself where none does.
fn first_step(length: u128, steps: &[u64]) -> u128
    requires { length ≤ 2 ^ 64 }
    ensures step { result ≡ first_step length steps.now }
    ensures reaches { length ≤ 10 * result }
    ensures small { result ≤ 2 ^ 64 }
{
    for step in steps {
        if length <= 10 * u128::from(*step) {
            return u128::from(*step);
        }
    }
    length.max(1)
}
