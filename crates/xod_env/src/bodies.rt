//! Which files of a volume a snapshot is lent.
//!
//! Numbers alone: no volume and no lease. A log file is two volume files, its body under an even number and its ends
//! behind it, and only bodies have records.
ghost use Rattle.std.specs.Prelude.{◌≡◌, IfOk};
ghost use Rattle.std.specs.List.{filter};
ghost use Rattle.xod_env.specs.Bodies.{is_body_up_to};

use std::alloc::Global;
use xod_base::Memory;

/// Whether a volume file is the body of a log file whose number is this one or below it.
pub(crate) fn is_body_up_to(number: u64, current: u32) -> bool
    ensures { result ≡ is_body_up_to current number }
{
    number % 2 == 0 && number / 2 <= u64::from(current)
}

/// The bodies up to that of the current log file, of a volume's file numbers and in their order.
pub(crate) fn bodies_to_lend(
    alloc: Global,
    numbers: &[u64],
    current: u32,
) -> Result<Vec<u64>, Memory>
    ensures { IfOk result (λ bodies. bodies.items ≡ filter (is_body_up_to current) numbers.now) }
{
    let mut bodies = Vec::new(alloc);
    for number in numbers {
        if is_body_up_to(*number, current) {
            bodies.push(*number)?;
        }
    }
    Ok(bodies)
}
