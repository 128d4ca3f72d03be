//! Chains of messages.

ghost use Rattle.std.specs.Prelude.{◌≡◌};

use std::marker::Model;

/// A chain: messages, by number from 1, each of which is served before the next and holds it back.
pub struct Chain {
    messages: Vec<u32>,
    cost: u64,
    release: u64,
}

impl Model for Chain {
    ghost use Rattle.waff_plan.specs.CostedChain.{CostedChain};

    ghost Value = { CostedChain };

    ghost view = { λ c. record {
      messages = c.messages.items;
      cost = c.cost;
      release = c.release;
    } };
}

// Written out: a derived drop is proved again in each crate that lets go of the value.
impl Drop for Chain {
    fn drop(self) {
        let Chain {
            messages,
            cost: _,
            release: _,
        } = self;
        drop(messages);
    }
}

impl Chain {
    /// The chain of these messages, with their cost and its release.
    pub(crate) fn new(messages: Vec<u32>, cost: u64, release: u64) -> Self
        ensures { result ≡ record { messages = messages.items; cost = cost; release = release } }
    {
        Chain {
            messages,
            cost,
            release,
        }
    }

    /// The numbers of the messages, in order.
    pub fn messages(&self) -> &[u32]
        ensures { result.now ≡ self.now.messages }
    {
        self.messages.as_slice()
    }

    /// The sum of the running times, in ticks.
    pub fn cost(&self) -> u64
        ensures { result ≡ self.now.cost }
    {
        self.cost
    }

    /// The ticks in which nothing of it runs: those before its first message, and the think times between its
    /// messages. 0 where there is no message.
    pub fn release(&self) -> u64
        ensures { result ≡ self.now.release }
    {
        self.release
    }
}
