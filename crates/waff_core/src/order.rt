//! Orders of messages.

ghost use Rattle.std.specs.Prelude.{◌≡◌, ◌≤◌, ◌↔◌, length, All, IsTrue, IfOk};
ghost use Rattle.std.specs.List.{list_all};
ghost use Rattle.waff_core.specs.Job.{IsOrder};
ghost use Rattle.waff_core.specs.Orders.{IsMarked, MayStand};

use std::alloc::{AllocError, Global};
use waff_order::Needs;

/// Whether the order is a list of all messages, each once, in which each need stands before its
/// message.
pub(crate) fn is_order(alloc: Global, needs: &Needs, order: &[u32]) -> Result<bool, AllocError>
    ensures { IfOk result (λ answer. IsTrue answer ↔ IsOrder needs.now order.now) }
{
    let mut marks = vec![in alloc; false; needs.len() as usize]?;
    for place in 0..order.len() {
        if !may_stand(needs, order[place], &marks) {
            return Ok(false);
        }
        marks[order[place] as usize - 1] = true;
    }
    Ok(are_all(&marks))
}

fn are_all(marks: &[bool]) -> bool
    ensures { result ≡ list_all (λ mark. mark) marks.now }
{
    marks.iter().all(|mark| *mark)
}

/// Whether message `n` may stand next after those that are marked.
fn may_stand(needs: &Needs, n: u32, marks: &[bool]) -> bool
    requires { length marks.now ≡ length needs.now }
    ensures { IsTrue result ↔ MayStand needs.now marks.now n }
{
    if n < 1 || needs.len() < n {
        return false;
    }
    !marks[n as usize - 1] && are_marked(needs.of(n), marks)
}

/// Whether the messages are all marked.
fn are_marked(messages: &[u32], marks: &[bool]) -> bool
    requires { All (λ n. (1 ≤ n) × (n ≤ length marks.now)) messages.now }
    ensures { IsTrue result ↔ All (IsMarked marks.now) messages.now }
{
    for at in 0..messages.len() {
        if !marks[messages[at] as usize - 1] {
            return false;
        }
    }
    true
}
