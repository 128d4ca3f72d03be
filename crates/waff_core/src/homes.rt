//! Which parcels are home in a state at which tests look.

ghost use Rattle.std.specs.Prelude.{◌≡◌, ◌⊎◌, ◌<◌, ℕ, true, false, length, All, Contains};
ghost use Rattle.std.specs.Prelude.{IfOk};
ghost use Rattle.waff_core.specs.Job.{IsJob};
ghost use Rattle.waff_core.specs.Shown.{AreHome, IsSteady, core_in, is_home};

use crate::steps::Machine;
use crate::{Job, Phase};
use std::alloc::{AllocError, Global};

/// For each affinity whether its parcel is home: not with a message that runs.
pub(crate) fn homes(alloc: Global, job: &Job, machine: &Machine) -> Result<Vec<bool>, AllocError>
    requires job { IsJob job.now }
    requires steady { IsSteady job.now (core_in machine.now) }
    ensures { IfOk result (λ home. AreHome job.now (core_in machine.now) home.items) }
{
    let mut home = vec![in alloc; true; job.layout().tree().len() as usize]?;
    for at in 0..machine.phases.len() {
        match machine.phases[at] {
            Phase::Running(m) => lend(&mut home, job.owners(m)),
            Phase::Free | Phase::Drawn(_) | Phase::Ended => {}
        }
    }
    Ok(home)
}

/// Marks the parcels of these affinities as away.
fn lend(home: &mut [bool], owners: &[u16])
    requires { All (λ a. a < length home.old) owners.now }
    ensures lent { (a : ℕ) → Contains owners.now a → is_home home.new a ≡ false }
    ensures kept { (a : ℕ) → is_home home.old a ≡ false → is_home home.new a ≡ false }
    ensures others { (a : ℕ) → is_home home.new a ≡ false
        → (is_home home.old a ≡ false) ⊎ Contains owners.now a }
{
    for at in 0..owners.len() {
        home[owners[at] as usize] = false;
    }
}
