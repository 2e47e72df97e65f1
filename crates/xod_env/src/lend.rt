//! The lease of a snapshot.
//!
//! It is of the bodies that a volume has up to the current log file: of no ends, and of no file above.
ghost use Rattle.std.specs.Prelude.{◌≡◌, ◌∷◌, IfOk, IsErrOf, IsTrue, OnErr, OnOk};
ghost use Rattle.std.specs.FinMap.{keys};
ghost use Rattle.std.specs.List.{filter};
ghost use Rattle.xod_base.specs.Causes.{Rose};
ghost use Rattle.xod_volume.specs.declared.volume.VolumeError.{VolumeError};
ghost use Rattle.xod_env.specs.Bodies.{is_body_up_to};
ghost use Rattle.xod_env.specs.EnvCalls.{KeepsFiles};
ghost use Rattle.xod_env.specs.Envs.{bodies_up_to};

use crate::bodies::bodies_to_lend;
use std::alloc::Global;
use xod_volume::{Volume, VolumeError};

/// Lends the bodies up to that of the current log file.
pub(crate) fn lend_bodies<V: Volume>(
    alloc: Global,
    volume: &mut V,
    current: u32,
) -> Result<V::Held, VolumeError>
    ensures list { IsTrue (V.tells volume.old) → IfOk result (λ lease.
        V.Held.list lease ≡ filter (is_body_up_to current) (keys (V.files volume.old))) }
    ensures holds { IsTrue (V.tells volume.old) → IfOk result (λ lease.
        V.Held.lent lease ≡ bodies_up_to current (V.files volume.old)) }
    ensures tells_alike { IfOk result (λ lease. V.Held.tells lease ≡ V.tells volume.old) }
    ensures faultless { IfOk result (λ lease. V.Held.faults lease ≡ 0) }
    ensures lent { IfOk result (λ lease.
        V.leases volume.new ≡ V.Held.list lease ∷ V.leases volume.old) }
    ensures refused { OnErr result (V.leases volume.new ≡ V.leases volume.old) }
    ensures failed { IsErrOf result VolumeError.Failed
        → Rose (V.faults volume.old) (V.faults volume.new) }
    ensures unfailed { ¬ (IsErrOf result VolumeError.Failed)
        → V.faults volume.new ≡ V.faults volume.old }
    ensures keeps { KeepsFiles V.tells V.files V.moment V.may_leave V.refs V.faults
        volume.old volume.new }
{
    let numbers = volume.files()?;
    let bodies = bodies_to_lend(alloc, &numbers, current)?;
    volume.lend(&bodies)
}
