//! A limit on workers: a number of them, or none.
ghost use Rattle.std.specs.Prelude.{◌≡◌, IfSome};
ghost use Rattle.waff_plan.specs.Bound.{IsWorkers};

use waff_plan::Workers;

/// The limit as a number.
pub fn number_of(workers: Option<Workers>) -> Option<u32>
    ensures same { result ≡ workers }
    ensures fits { IfSome result IsWorkers }
{
    match workers {
        Some(k) => Some(k.number()),
        None => None,
    }
}

/// The limit of this number.
pub fn limit_of(number: Option<u32>) -> Option<Workers>
    requires { IfSome number IsWorkers }
    ensures { result ≡ number }
{
    match number {
        Some(k) => Some(workers_of(k)),
        None => None,
    }
}

/// So many workers.
pub fn workers_of(number: u32) -> Workers
    requires { IsWorkers number }
    ensures { result ≡ number }
{
    match Workers::of(number) {
        Some(workers) => workers,
        None => unreachable!(),
    }
}
