//! Pairs of messages: for each message, from 1, a set of earlier ones. A set is a word with a bit
//! for each message.

ghost use Rattle.std.specs.Prelude.{◌<◌, ◌≤◌, length};
ghost use Rattle.waff_assign.specs.Held.{AreKnown};

use std::alloc::{AllocError, Global};
use waff_assign::{Assigned, exclude_each_other};
use waff_model::{AffinityId, Tree};
use waff_order::Needs;

/// The set of message `m` alone.
pub fn only(m: u32) -> u64 {
    1 << (m % 64)
}

/// Whether the message is in the set.
pub fn has(set: u64, m: u32) -> bool {
    set & only(m) != 0
}

/// The ordered pairs: all earlier messages that exclude the message.
pub fn ordered(alloc: Global, tree: &Tree, assigned: &Assigned) -> Result<Vec<u64>, AllocError>
    requires { AreKnown tree.now assigned.now }
{
    let mut pairs = Vec::new(alloc);
    for m in 1..assigned.len() + 1 {
        pairs.push(excluding(tree, assigned, m))?;
    }
    Ok(pairs)
}

fn excluding(tree: &Tree, assigned: &Assigned, m: u32) -> u64
    requires from { 1 ≤ m }
    requires to { m ≤ length assigned.now }
    requires known { AreKnown tree.now assigned.now }
{
    let mut set = 0;
    for i in 1..m {
        if exclude_each_other(tree, assigned, i, m) {
            set |= only(i);
        }
    }
    set
}

/// The needs as pairs.
pub fn needed(alloc: Global, needs: &Needs) -> Result<Vec<u64>, AllocError> {
    let mut pairs = Vec::new(alloc);
    for m in 1..needs.len() + 1 {
        pairs.push(needs.of(m).iter().fold(0, |set, i| set | only(*i)))?;
    }
    Ok(pairs)
}

/// The messages from which a path of pairs leads to each message.
pub fn paths(alloc: Global, pairs: &[u64]) -> Result<Vec<u64>, AllocError> {
    let mut paths = Vec::new(alloc);
    for set in pairs {
        let longer = behind(&paths, *set);
        paths.push(*set | longer)?;
    }
    Ok(paths)
}

/// All that leads to a message of the set.
fn behind(paths: &[u64], set: u64) -> u64 {
    let mut all = 0;
    for (m, path) in (1u32..).zip(paths) {
        if has(set, m) {
            all |= *path;
        }
    }
    all
}

/// As many steps as lead from the root to the deepest affinity.
pub fn depth(tree: &Tree) -> u32 {
    let mut depth = 0;
    for a in 0..tree.len() {
        depth = above(tree, AffinityId(a as u16)).max(depth);
    }
    depth
}

/// How many affinities are above this one.
fn above(tree: &Tree, affinity: AffinityId) -> u32
    requires { affinity.0 < length tree.now }
{
    let mut count: u32 = 0;
    for b in 0..tree.len() {
        let other = AffinityId(b as u16);
        if other != affinity && tree.at_or_above(other, affinity) {
            count = count.saturating_add(1);
        }
    }
    count
}
