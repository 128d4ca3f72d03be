//! What messages await.

ghost use Rattle.std.specs.Prelude.{◌≡◌, [], IfOk};

use smallvec::SmallVec;
use std::alloc::{AllocError, Global};
use std::marker::Model;
use std::sync::Arc;

/// A message that another awaits, and how many ticks after its finish the other is issued at the soonest.
#[derive(Clone, Copy, Debug, Default, PartialEq)]
pub struct Await {
    /// The number of the message that is awaited, from 1.
    pub message: u32,
    /// The gap, in ticks.
    pub gap: u32,
}

/// The messages that a message awaits by its list. A list lies elsewhere, so that the many messages that have
/// none are hardly longer for it, and copies share it. One of up to four lies in one allocation.
pub struct Awaits {
    list: Option<Arc<SmallVec<Await, 4>>>,
}

impl Model for Awaits {
    ghost use Rattle.std.specs.Prelude.{List, [], option_map, unwrap_or};
    ghost use Rattle.waff_model.specs.declared.awaits.Await.{Await};

    ghost Value = { List Await };

    ghost view = { λ a. unwrap_or (option_map (λ list. list.value.items) a.list) [] };
}

// Written out: a derived drop is proved again in each crate that lets go of the value.
impl Drop for Awaits {
    fn drop(self) {
        let Awaits { list } = self;
        drop(list);
    }
}

impl Awaits {
    /// No message.
    pub fn none() -> Self
        ensures { result ≡ [] }
    {
        Awaits { list: None }
    }

    /// These messages.
    pub fn of(alloc: Global, list: SmallVec<Await, 4>) -> Result<Self, AllocError>
        ensures { IfOk result (λ awaits. awaits ≡ list.items) }
    {
        if list.is_empty() {
            return Ok(Awaits::none());
        }
        Ok(Awaits {
            list: Some(Arc::new(alloc, list)?),
        })
    }

    /// The same messages.
    pub fn share(&self) -> Result<Self, AllocError>
        ensures { IfOk result (λ awaits. awaits ≡ self.now) }
    {
        match &self.list {
            Some(list) => Ok(Awaits {
                list: Some(Arc::try_clone(list)?),
            }),
            None => Ok(Awaits::none()),
        }
    }

    /// The messages.
    pub fn as_slice(&self) -> &[Await]
        ensures { result.now ≡ self.now }
    {
        match &self.list {
            Some(list) => list.as_slice(),
            None => &[],
        }
    }
}
