//! The messages that are open at locks.

ghost use Rattle.std.specs.Prelude.{◌≡◌, ◌<◌, ◌++◌, ℕ, List, [], ◌∷◌, length, Contains, if◌then◌else◌, IfOk, IsTrue, OnOk};
ghost use Rattle.std.specs.Prelude.{slice_index};
ghost use Rattle.waff_order.specs.Takers.{AreKept, AreStates, AreTouched, IsChain, LockState};
ghost use Rattle.waff_order.specs.Takers.{needs_at, needs_by, note_use, note_uses, opened_at, opened_by};
ghost use Rattle.waff_order.specs.Takers.{state_at, taken_at};

use std::alloc::{AllocError, Global};
use waff_assign::LockUse;
use waff_model::spans::Spread;

/// A message that shares a lock, and the place, from 1, of the one before it in the chain of its lock: 0 where
/// there is none.
#[derive(Clone, Copy)]
pub(crate) struct Sharer {
    pub message: u32,
    pub next: u32,
}

/// Of one lock: the latest message that used it alone, 0 before the first, and the place of the latest since that
/// shares it, 0 where there is none.
#[derive(Clone, Copy)]
pub(crate) struct Taken {
    pub alone: u32,
    pub sharers: u32,
}

/// Who took each lock. Who took it before the latest message in the root is closed: that message comes behind it,
/// and all later ones behind that message.
#[derive(Drop)]
pub(crate) struct Takers {
    pub locks: Vec<Taken>,
    pub chain: Vec<Sharer>,
    /// The locks at which some message is open, each once.
    pub touched: Vec<u32>,
}

impl Takers {
    /// No lock is taken.
    pub fn none(alloc: Global) -> Self
        ensures locks { result.locks.items ≡ [] }
        ensures chain { result.chain.items ≡ [] }
        ensures touched { result.touched.items ≡ [] }
    {
        Takers {
            locks: Vec::new(alloc),
            chain: Vec::new(alloc),
            touched: Vec::new(alloc),
        }
    }

    /// Message `m` joins: appends what it needs, by the locks, of those that joined before, and notes it at the locks
    /// that it uses. `latest` has the latest message in the root at the place `root`, 0 where there is none.
    #[inline(always)]
    pub fn take(
        &mut self,
        latest: &Spread<u32>,
        root: usize,
        uses: &[LockUse],
        m: u32,
        is_root: bool,
        needs: &mut Vec<u32>,
    ) -> Result<(), AllocError>
        requires within { root < length latest.now }
        requires kept { AreKept self.old.locks.items self.old.chain.items }
        ensures needs { OnOk result ((states : List LockState)
            → AreStates self.old.locks.items self.old.chain.items states
            → needs.new.items ≡ needs.old.items ++ (if is_root
            then opened_by (slice_index latest.now root) states self.old.touched.items
            else needs_by (slice_index latest.now root) states uses.now)) }
        ensures kept { OnOk result ((states : List LockState)
            → AreStates self.old.locks.items self.old.chain.items states
            → AreStates self.new.locks.items self.new.chain.items (note_uses m states uses.now)) }
        ensures touched { OnOk result ((states : List LockState)
            → AreStates self.old.locks.items self.old.chain.items states
            → AreTouched (if is_root then m else slice_index latest.now root) states
            (if is_root then [] else self.old.touched.items)
            → AreTouched (if is_root then m else slice_index latest.now root)
            (note_uses m states uses.now) self.new.touched.items) }
    {
        if uses.is_empty() && (!is_root || self.touched.is_empty()) {
            return Ok(());
        }
        let root = latest.at(root);
        self.list(uses, root, is_root, needs)?;
        self.note(uses, m, root, is_root)?;
        Ok(())
    }

    /// Appends what a message needs, by the locks, of those that joined before: at each lock that it uses those open
    /// at it, or where there is none the latest above it, and in the root those that are open at all locks. `root` is
    /// the latest message in the root, 0 where there is none.
    fn list(
        &self,
        uses: &[LockUse],
        root: u32,
        is_root: bool,
        needs: &mut Vec<u32>,
    ) -> Result<(), AllocError>
        requires kept { AreKept self.now.locks.items self.now.chain.items }
        ensures { OnOk result ((states : List LockState)
            → AreStates self.now.locks.items self.now.chain.items states
            → needs.new.items ≡ needs.old.items ++ (if is_root then opened_by root states self.now.touched.items
            else needs_by root states uses.now)) }
    {
        if is_root {
            self.list_all(root, needs)
        } else {
            self.list_used(uses, root, needs)
        }
    }

    /// Appends those that are open at locks that are used, or the latest above them.
    fn list_used(&self, uses: &[LockUse], root: u32, needs: &mut Vec<u32>) -> Result<(), AllocError>
        requires kept { AreKept self.now.locks.items self.now.chain.items }
        ensures { OnOk result ((states : List LockState)
            → AreStates self.now.locks.items self.now.chain.items states
            → needs.new.items ≡ needs.old.items ++ needs_by root states uses.now) }
    {
        for used in uses {
            self.list_one(*used, root, needs)?;
        }
        Ok(())
    }

    /// The same for one lock.
    fn list_one(&self, used: LockUse, root: u32, needs: &mut Vec<u32>) -> Result<(), AllocError>
        requires kept { AreKept self.now.locks.items self.now.chain.items }
        ensures { OnOk result ((states : List LockState)
            → AreStates self.now.locks.items self.now.chain.items states
            → needs.new.items ≡ needs.old.items ++ needs_at root used.alone (state_at states used.lock)) }
    {
        let taken = self.taken(used.lock);
        let before = needs.len();
        if used.alone {
            self.list_open(taken, root, needs)?;
        }
        let above = taken.alone.max(root);
        if needs.len() == before && above > 0 {
            needs.push(above)?;
        }
        Ok(())
    }

    /// Appends those that are open at all locks.
    fn list_all(&self, root: u32, needs: &mut Vec<u32>) -> Result<(), AllocError>
        requires kept { AreKept self.now.locks.items self.now.chain.items }
        ensures { OnOk result ((states : List LockState)
            → AreStates self.now.locks.items self.now.chain.items states
            → needs.new.items ≡ needs.old.items ++ opened_by root states self.now.touched.items) }
    {
        for lock in self.touched.iter() {
            self.list_open(self.taken(*lock), root, needs)?;
        }
        Ok(())
    }

    /// Appends those that are open at a lock.
    fn list_open(&self, taken: Taken, root: u32, needs: &mut Vec<u32>) -> Result<(), AllocError>
        requires chain { (sharers : List ℕ) × IsChain self.now.chain.items taken.sharers sharers }
        ensures { OnOk result ((sharers : List ℕ)
            → IsChain self.now.chain.items taken.sharers sharers
            → needs.new.items ≡ needs.old.items
            ++ opened_at root (record { alone = taken.alone; sharers = sharers })) }
    {
        if taken.alone > 0 && taken.alone >= root {
            needs.push(taken.alone)?;
        }
        let mut at = taken.sharers;
        while at > 0 {
            let sharer = self.chain[at as usize - 1];
            if sharer.message < root {
                break;
            }
            needs.push(sharer.message)?;
            at = sharer.next;
        }
        Ok(())
    }

    /// Notes message `m`, which joins, at the locks that it uses, where `root` is the latest message in the root before
    /// it. Where it runs in the root, all others are closed.
    fn note(&mut self, uses: &[LockUse], m: u32, root: u32, is_root: bool) -> Result<(), AllocError>
        requires kept { AreKept self.old.locks.items self.old.chain.items }
        ensures kept { OnOk result ((states : List LockState)
            → AreStates self.old.locks.items self.old.chain.items states
            → AreStates self.new.locks.items self.new.chain.items (note_uses m states uses.now)) }
        ensures touched { OnOk result ((states : List LockState)
            → AreStates self.old.locks.items self.old.chain.items states
            → AreTouched (if is_root then m else root) states (if is_root then [] else self.old.touched.items)
            → AreTouched (if is_root then m else root) (note_uses m states uses.now) self.new.touched.items) }
    {
        if is_root {
            self.touched.clear();
            self.note_used(uses, m, m)
        } else {
            self.note_used(uses, m, root)
        }
    }

    /// Notes message `m` at the locks that it uses, where `root` is the latest message in the root.
    fn note_used(&mut self, uses: &[LockUse], m: u32, root: u32) -> Result<(), AllocError>
        requires kept { AreKept self.old.locks.items self.old.chain.items }
        ensures kept { OnOk result ((states : List LockState)
            → AreStates self.old.locks.items self.old.chain.items states
            → AreStates self.new.locks.items self.new.chain.items (note_uses m states uses.now)) }
        ensures touched { OnOk result ((states : List LockState)
            → AreStates self.old.locks.items self.old.chain.items states
            → AreTouched root states self.old.touched.items
            → AreTouched root (note_uses m states uses.now) self.new.touched.items) }
    {
        for used in uses {
            self.note_one(*used, m, root)?;
        }
        Ok(())
    }

    /// The same for one lock.
    fn note_one(&mut self, used: LockUse, m: u32, root: u32) -> Result<(), AllocError>
        requires kept { AreKept self.old.locks.items self.old.chain.items }
        ensures kept { OnOk result ((states : List LockState)
            → AreStates self.old.locks.items self.old.chain.items states
            → AreStates self.new.locks.items self.new.chain.items (note_use m states used)) }
        ensures touched { OnOk result ((states : List LockState)
            → AreStates self.old.locks.items self.old.chain.items states
            → AreTouched root states self.old.touched.items
            → AreTouched root (note_use m states used) self.new.touched.items) }
    {
        self.grow(used.lock)?;
        let taken = self.locks[used.lock as usize];
        if !self.is_open(taken, root) {
            self.touched.push(used.lock)?;
        }
        let next = if used.alone {
            Taken {
                alone: m,
                sharers: 0,
            }
        } else {
            Taken {
                alone: taken.alone,
                sharers: self.link(m, taken.sharers)?,
            }
        };
        self.locks[used.lock as usize] = next;
        Ok(())
    }

    /// Makes room for this lock.
    fn grow(&mut self, lock: u32) -> Result<(), AllocError>
        ensures room { OnOk result (lock < length self.new.locks.items) }
        ensures locks { OnOk result ((l : ℕ) → taken_at self.new.locks.items l ≡ taken_at self.old.locks.items l) }
        ensures chain { OnOk result (self.new.chain.items ≡ self.old.chain.items) }
        ensures touched { OnOk result (self.new.touched.items ≡ self.old.touched.items) }
    {
        while self.locks.len() <= lock as usize {
            self.locks.push(Taken {
                alone: 0,
                sharers: 0,
            })?;
        }
        Ok(())
    }

    /// Puts message `m` before those of the chain from a place, and gives its own place.
    fn link(&mut self, m: u32, next: u32) -> Result<u32, AllocError>
        ensures chain { IfOk result (λ at. (sharers : List ℕ)
            → IsChain self.old.chain.items next sharers → IsChain self.new.chain.items at (m ∷ sharers)) }
        ensures others { OnOk result ((at : ℕ) (sharers : List ℕ)
            → IsChain self.old.chain.items at sharers → IsChain self.new.chain.items at sharers) }
        ensures locks { OnOk result (self.new.locks.items ≡ self.old.locks.items) }
        ensures touched { OnOk result (self.new.touched.items ≡ self.old.touched.items) }
    {
        if self.chain.len() >= u32::MAX as usize {
            return Err(AllocError);
        }
        self.chain.push(Sharer { message: m, next })?;
        Ok(self.chain.len() as u32)
    }

    /// Whether some message is open at a lock.
    fn is_open(&self, taken: Taken, root: u32) -> bool
        requires chain { (sharers : List ℕ) × IsChain self.now.chain.items taken.sharers sharers }
        ensures { IsTrue result → (sharers : List ℕ) → IsChain self.now.chain.items taken.sharers sharers
            → (i : ℕ) × Contains (opened_at root (record { alone = taken.alone; sharers = sharers })) i }
    {
        if taken.alone > 0 && taken.alone >= root {
            return true;
        }
        taken.sharers > 0 && self.chain[taken.sharers as usize - 1].message >= root
    }

    /// Who took this lock.
    fn taken(&self, lock: u32) -> Taken
        ensures { result ≡ taken_at self.now.locks.items lock }
    {
        match self.locks.get(lock as usize) {
            Some(taken) => *taken,
            None => Taken {
                alone: 0,
                sharers: 0,
            },
        }
    }
}
