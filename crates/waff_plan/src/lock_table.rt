//! A table of the latest of the messages that are noted, by the locks that they use.

ghost use Rattle.std.specs.Prelude.{◌≡◌, ℕ, ◌<◌, ◌≤◌, List, [], ◌∷◌, ◌++◌, length, All, IfOk, Some, true};
ghost use Rattle.std.specs.Prelude.{if◌then◌else◌, slice_set};
ghost use Rattle.waff_assign.specs.Held.{Held, using};
ghost use Rattle.waff_assign.specs.Order.{held_of};
ghost use Rattle.waff_plan.specs.Latest.{later_of};
ghost use Rattle.waff_plan.specs.Table.{IsLatestByLocks, IsLockTable, lock_at};

use crate::latest::{Found, Latest};
use std::alloc::{AllocError, Global};
use waff_assign::LockUse;
use waff_model::limits::MAX_MESSAGES;
use waff_model::spans::Later;

/// Of a lock the latest message that used it alone, and the latest that used it.
#[derive(Clone, Copy)]
pub(crate) struct LockLatest {
    pub alone: Found,
    pub users: Found,
}

impl LockLatest {
    /// The latest that excludes a message which uses the lock, alone or not.
    fn excluding(self, alone: bool) -> Found
        ensures { result ≡ (if alone then self.users else self.alone) }
    {
        if alone { self.users } else { self.alone }
    }

    /// With one more message, which used the lock alone or not.
    fn noted(self, message: Latest, alone: bool) -> LockLatest
        requires few { message.number ≤ MAX_MESSAGES }
        ensures users { result.users ≡ later_of self.users (Some message) }
        ensures alone { result.alone ≡ (if alone then later_of self.alone (Some message) else self.alone) }
    {
        LockLatest {
            alone: if alone {
                self.alone.later(Found::one(message))
            } else {
                self.alone
            },
            users: self.users.later(Found::one(message)),
        }
    }
}

/// The messages that are noted, by locks, and the latest of those that use some lock.
#[derive(Drop)]
pub(crate) struct LockTable {
    pub locks: Vec<LockLatest>,
    pub some: Found,
}

impl LockTable {
    /// The table of no message, for these many locks.
    pub fn new(alloc: Global, count: usize) -> Result<Self, AllocError>
        ensures count { IfOk result (λ table. length table.locks.items ≡ count) }
        ensures table { IfOk result (λ table.
            (assigned : List Held) (finish : ℕ → ℕ) → IsLockTable assigned finish [] table) }
    {
        let none = LockLatest {
            alone: Found::none(),
            users: Found::none(),
        };
        Ok(LockTable {
            locks: vec![in alloc; none; count]?,
            some: Found::none(),
        })
    }

    /// The latest message that uses one of the locks that are used here, where one of both uses it alone.
    pub fn latest(&self, uses: &[LockUse]) -> Found
        requires within { All (λ u. u.lock < length self.now.locks.items) uses.now }
        ensures { (assigned : List Held) (finish : ℕ → ℕ) (noted : List ℕ)
            → IsLockTable assigned finish noted self.now
            → IsLatestByLocks assigned finish noted (using uses.now) result }
    {
        let mut found = Found::none();
        for used in uses {
            found = found.later(self.locks[used.lock as usize].excluding(used.alone));
        }
        found
    }

    /// Notes a message that uses these locks.
    pub fn note(&mut self, uses: &[LockUse], message: Latest)
        requires within { All (λ u. u.lock < length self.old.locks.items) uses.now }
        requires few { message.number ≤ MAX_MESSAGES }
        ensures count { length self.new.locks.items ≡ length self.old.locks.items }
        ensures table { (assigned : List Held) (finish : ℕ → ℕ) (noted : List ℕ)
            → IsLockTable assigned finish noted self.old
            → (held_of assigned message.number).uses ≡ uses.now
            → finish message.number ≡ message.finish
            → IsLockTable assigned finish (noted ++ message.number ∷ []) self.new }
    {
        for used in uses {
            self.note_use(*used, message);
        }
    }

    /// Notes that a message uses this lock.
    fn note_use(&mut self, used: LockUse, message: Latest)
        requires within { used.lock < length self.old.locks.items }
        requires few { message.number ≤ MAX_MESSAGES }
        ensures locks { self.new.locks.items ≡ slice_set self.old.locks.items used.lock (record {
          users = later_of (lock_at self.old.locks.items used.lock).users (Some message);
          alone = if used.alone then later_of (lock_at self.old.locks.items used.lock).alone (Some message)
              else (lock_at self.old.locks.items used.lock).alone;
        }) }
        ensures some { self.new.some ≡ later_of self.old.some (Some message) }
    {
        let lock = used.lock as usize;
        self.locks[lock] = self.locks[lock].noted(message, used.alone);
        self.some = self.some.later(Found::one(message));
    }
}
