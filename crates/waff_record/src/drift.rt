//! Whether what is told of a run is longer than the run was.

ghost use Rattle.std.specs.Prelude.{◌≡◌, ◌<◌, ◌*◌, ◌-◌, length, nat_lt, slice_index_or, if◌then◌else◌};
ghost use Rattle.waff_record.specs.Drift.{drift_of, last_finish, short_turns};
ghost use Rattle.waff_record.specs.Turns.{no_turn};

use waff_line::Turn;

/// By how many per cent so many ticks of so many nanoseconds are more than what was measured, where that is more than a
/// hundredth.
pub fn drift_of(ticks: u64, tick: u32, measured: u64) -> Option<u128>
    ensures { result ≡ drift_of (ticks * tick) measured }
{
    let told = u128::from(ticks) * u128::from(tick);
    let measured = u128::from(measured);
    if measured > 0 && measured * 101 < told * 100 {
        Some((told - measured) * 100 / measured)
    } else {
        None
    }
}

/// The greatest finish of turns, 0 where there is none.
pub fn last_finish(turns: &[Turn]) -> u64
    ensures { result ≡ last_finish turns.now }
{
    let mut last = 0;
    for at in 0..turns.len() {
        let turn = turn_in(turns, at);
        last = turn.finish.max(last);
    }
    last
}

/// How many turns were shorter than a tick of so many nanoseconds.
pub fn short_turns(turns: &[Turn], tick: u32) -> usize
    ensures { result ≡ short_turns tick turns.now }
{
    let mut short = 0;
    for at in 0..turns.len() {
        let turn = turn_in(turns, at);
        let one = one_if_short(turn, tick);
        short += one;
    }
    short
}

/// The turn at this place.
fn turn_in(turns: &[Turn], at: usize) -> Turn
    requires within { at < length turns.now }
    ensures { result ≡ slice_index_or turns.now at no_turn }
{
    turns[at]
}

/// One where a turn is shorter than a tick of so many nanoseconds, else none.
fn one_if_short(turn: Turn, tick: u32) -> usize
    ensures { result ≡ (if nat_lt (turn.finish - turn.start) tick then 1 else 0) }
{
    if turn.finish.saturating_sub(turn.start) < u64::from(tick) {
        1
    } else {
        0
    }
}
