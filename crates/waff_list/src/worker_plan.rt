//! Plans for k workers.

ghost use Rattle.std.specs.Prelude.{◌≡◌, ◌≤◌, length, All};
ghost use Rattle.waff_model.specs.Numbers.{IsAmongFirst};
ghost use Rattle.waff_plan.specs.Timetable.{work_in};
ghost use Rattle.waff_plan.specs.Work.{IsNumber};
ghost use Rattle.waff_list.specs.Seating.{worker_of};

use std::marker::Model;
use waff_plan::Plan;

/// A plan for k workers: the start and the worker of each message. Messages and workers are
/// numbered from 1.
pub struct WorkerPlan {
    plan: Plan,
    workers: u32,
    seats: Vec<u32>,
    order: Vec<u32>,
}

impl Model for WorkerPlan {
    ghost use Rattle.waff_list.specs.Seating.{Seating, IsSeating};

    ghost Value = { Seating };

    ghost view = { λ p. record {
      plan = p.plan;
      workers = p.workers;
      seats = p.seats.items;
      order = p.order.items;
    } };

    ghost invariant = { λ p. IsSeating (record {
      plan = p.plan;
      workers = p.workers;
      seats = p.seats.items;
      order = p.order.items;
    }) };
}

// Written out: a derived drop is proved again in each crate that lets go of the value.
impl Drop for WorkerPlan {
    fn drop(self) {
        let WorkerPlan {
            plan,
            workers: _,
            seats,
            order,
        } = self;
        drop(plan);
        drop(seats);
        drop(order);
    }
}

impl WorkerPlan {
    ghost use Rattle.waff_list.specs.Seating.{IsSeating};

    /// The plan with these workers, and with the messages in this order.
    pub(crate) fn new(plan: Plan, workers: u32, seats: Vec<u32>, order: Vec<u32>) -> Self
        requires { IsSeating (record {
          plan = plan;
          workers = workers;
          seats = seats.items;
          order = order.items;
        }) }
        ensures { result ≡ record {
          plan = plan;
          workers = workers;
          seats = seats.items;
          order = order.items;
        } }
    {
        WorkerPlan {
            plan,
            workers,
            seats,
            order,
        }
    }

    /// When each message starts.
    pub fn plan(&self) -> &Plan
        ensures plan { result.now ≡ self.now.plan }
        ensures seating { IsSeating self.now }
    {
        &self.plan
    }

    /// How many workers there are.
    pub fn workers(&self) -> u32
        ensures { result ≡ self.now.workers }
    {
        self.workers
    }

    /// The worker of message `n`.
    pub fn worker(&self, n: u32) -> u32
        requires number { IsAmongFirst (length self.now.plan.timings) n }
        ensures worker { result ≡ worker_of self.now.seats n }
        ensures some { 1 ≤ result }
        ensures within { result ≤ self.now.workers }
    {
        self.seats[n as usize - 1]
    }

    /// The worker of each message, in the order of arrival.
    pub fn seats(&self) -> &[u32]
        ensures seats { result.now ≡ self.now.seats }
        ensures seating { IsSeating self.now }
    {
        self.seats.as_slice()
    }

    /// The messages by start tick, then arrival.
    pub fn order(&self) -> &[u32]
        ensures order { result.now ≡ self.now.order }
        ensures messages { All (IsNumber (work_in self.now.plan)) result.now }
    {
        self.order.as_slice()
    }
}
