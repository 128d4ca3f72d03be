//! Numbers of workers.
ghost use Rattle.std.specs.Prelude.{◌≡◌, None, IfSome};
ghost use Rattle.waff_plan.specs.Bound.{IsWorkers};

use std::marker::Model;
use waff_model::limits::MAX_WORKERS;

/// A number of workers, which is from 1 to `MAX_WORKERS`.
#[derive(Clone, Copy)]
pub struct Workers {
    number: u32,
}

impl Model for Workers {
    ghost use Rattle.std.specs.Prelude.{ℕ};
    ghost use Rattle.waff_plan.specs.Bound.{IsWorkers};

    ghost Value = { ℕ };

    ghost view = { λ workers. workers.number };

    ghost invariant = { λ workers. IsWorkers workers.number };

    ghost inverse = { λ number. record { number = number } };
}

impl Workers {
    /// So many workers, where that is a number of workers.
    pub fn of(number: u32) -> Option<Workers>
        ensures is { IfSome result (λ workers. workers ≡ number) }
        ensures none { result ≡ None → ¬ IsWorkers number }
    {
        if 1 <= number && number <= MAX_WORKERS {
            Some(Workers { number })
        } else {
            None
        }
    }

    /// How many there are.
    pub fn number(self) -> u32
        ensures number { result ≡ self }
        ensures is { IsWorkers result }
    {
        self.number
    }
}
