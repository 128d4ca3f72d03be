//! Who waits for whom.

ghost use Rattle.std.specs.Prelude.{◌≡◌, ◌-◌, ◌↔◌, [], ◌∷◌, replicate, false, true};
ghost use Rattle.std.specs.Prelude.{length, All, IfOk, OnOk, IsTrue, MatchOption, slice_index_or, slice_set};
ghost use Rattle.waff_model.specs.Numbers.{IsAmongFirst};
ghost use Rattle.waff_waits.specs.Waits.{Enters, LetsGo, WaitsForNone, waiting_for};

use crate::link::Link;
use std::alloc::{AllocError, Global};
use std::marker::Model;

/// The messages that wait for each message, and those that have finished. Messages are numbered from
/// 1. Contracts see both; how much a message waits for is counted beside.
#[derive(Drop)]
pub struct Waits {
    /// The number of the link with which the trail of each message begins, 0 for none.
    firsts: Vec<u32>,
    /// The links of all trails, numbered from 1.
    links: Vec<Link>,
    /// How much each message waits for.
    left: Vec<u32>,
    finished: Vec<bool>,
}

impl Model for Waits {
    ghost use Rattle.waff_waits.specs.Trails.{trails};
    ghost use Rattle.waff_waits.specs.Waits.{WhoWaits};
    ghost use Rattle.waff_waits.specs.Counted.{AreCounted};

    ghost Value = { WhoWaits };

    ghost view = { λ w. record {
      awaited = trails w.firsts.items w.links.items;
      finished = w.finished.items;
    } };

    ghost invariant = { λ w.
        AreCounted w.firsts.items w.links.items w.left.items w.finished.items };
}

impl Waits {
    /// Of `count` messages none waits, and none has finished.
    pub fn none(alloc: Global, count: usize) -> Result<Self, AllocError>
        ensures { IfOk result (λ waits. waits ≡ record {
          awaited = replicate count [];
          finished = replicate count false;
        }) }
    {
        Ok(Waits {
            firsts: vec![in alloc; 0; count]?,
            links: Vec::with_capacity(alloc, count)?,
            left: vec![in alloc; 0; count]?,
            finished: vec![in alloc; false; count]?,
        })
    }

    /// Message `m` enters: it waits for each of these that has not finished. Whether it waits for
    /// nothing.
    pub fn enter(&mut self, m: u32, needs: &[u32]) -> Result<bool, AllocError>
        requires number { IsAmongFirst (length self.old.awaited) m }
        requires needs { All (IsAmongFirst (length self.old.awaited)) needs.now }
        ensures enters { OnOk result (Enters self.old m needs.now self.new) }
        ensures none { IfOk result (λ none. IsTrue none ↔ WaitsForNone self.new m) }
    {
        for at in 0..needs.len() {
            let need = needs[at];
            if !self.has_finished(need) {
                self.wait(need, m)?;
            }
        }
        Ok(self.waits_for_none(m))
    }

    /// One of those that wait for message `i` is let go: which one, and whether it waits for nothing
    /// now.
    pub fn let_go(&mut self, i: u32) -> Option<(u32, bool)>
        requires number { IsAmongFirst (length self.old.awaited) i }
        ensures goes { MatchOption result
            ((waiting_for self.old i ≡ []) × (self.new ≡ self.old))
            (λ r. LetsGo self.old i r.0 self.new) }
        ensures none { MatchOption result (self.new ≡ self.old)
            (λ r. IsTrue r.1 ↔ WaitsForNone self.new r.0) }
    {
        let m = self.unhook(i)?;
        Some((m, self.waits_for_none(m)))
    }

    /// Whether message `i` has finished.
    fn has_finished(&self, i: u32) -> bool
        requires number { IsAmongFirst (length self.now.awaited) i }
        ensures { result ≡ slice_index_or self.now.finished (i - 1) false }
    {
        self.finished[i as usize - 1]
    }

    /// Whether message `m` waits for nothing.
    fn waits_for_none(&self, m: u32) -> bool
        requires number { IsAmongFirst (length self.now.awaited) m }
        ensures { IsTrue result ↔ WaitsForNone self.now m }
    {
        self.left[m as usize - 1] == 0
    }

    /// Message `m` waits for message `i`. Links have numbers of 32 bits: there is no room for more of them.
    fn wait(&mut self, i: u32, m: u32) -> Result<(), AllocError>
        requires awaited { IsAmongFirst (length self.old.awaited) i }
        requires number { IsAmongFirst (length self.old.awaited) m }
        ensures { OnOk result (self.new ≡ record {
          awaited = slice_set self.old.awaited (i - 1) (m ∷ waiting_for self.old i);
          finished = self.old.finished;
        }) }
    {
        let Ok(number) = u32::try_from(self.links.len() + 1) else {
            return Err(AllocError);
        };
        let next = self.firsts[i as usize - 1];
        self.links.push(Link { message: m, next })?;
        self.firsts[i as usize - 1] = number;
        self.left[m as usize - 1] += 1;
        Ok(())
    }

    /// Takes out one of those that wait for message `i`.
    fn unhook(&mut self, i: u32) -> Option<u32>
        requires number { IsAmongFirst (length self.old.awaited) i }
        ensures { MatchOption result
            ((waiting_for self.old i ≡ []) × (self.new ≡ self.old))
            (λ m. LetsGo self.old i m self.new) }
    {
        let at = self.firsts[i as usize - 1];
        if at == 0 {
            return None;
        }
        let link = self.links[at as usize - 1];
        self.firsts[i as usize - 1] = link.next;
        self.left[link.message as usize - 1] -= 1;
        Some(link.message)
    }

    /// Message `i` has finished.
    pub fn finish(&mut self, i: u32)
        requires number { IsAmongFirst (length self.old.awaited) i }
        ensures { self.new ≡ record {
          awaited = self.old.awaited;
          finished = slice_set self.old.finished (i - 1) true;
        } }
    {
        self.finished[i as usize - 1] = true;
    }
}
