//! The bytes of a write, of which the first sixteen take no memory.
ghost use Rattle.std.specs.Prelude.{◌≡◌, ◌≤◌, length, IfOk, IsOk};

use std::alloc::Global;
use std::marker::Model;
use xod_base::Memory;

/// Bytes that were written.
#[derive(Drop)]
pub struct Patch {
    few: [u8; 16],
    used: usize,
    many: Vec<u8>,
}

impl Model for Patch {
    ghost use Rattle.std.specs.Prelude.{◌≡◌, ◌<◌, ◌≤◌, ℕ, List, [], ◌++◌, take};
    ghost use Rattle.std.specs.Coded.{coded_list, coded_ℕ};

    ghost Value = { List ℕ };

    ghost coded = { coded_list coded_ℕ };

    ghost view = { λ patch. take patch.used patch.few ++ patch.many.items };

    ghost invariant = { λ patch. (patch.used ≤ 16) × (0 < patch.used → patch.many.items ≡ []) };
}

impl Patch {
    /// The patch of these bytes. At most sixteen take no memory.
    pub fn new(alloc: Global, bytes: &[u8]) -> Result<Self, Memory>
        ensures same { IfOk result (λ patch. patch ≡ bytes.now) }
        ensures few_take_no_memory { length bytes.now ≤ 16 → IsOk result }
    {
        let mut few = [0; 16];
        let used = bytes.len();
        if used <= 16 {
            few[..used].copy_from_slice(bytes);
            Ok(Patch {
                few,
                used,
                many: Vec::new(alloc),
            })
        } else {
            Ok(Patch {
                few,
                used: 0,
                many: Vec::from_slice(alloc, bytes)?,
            })
        }
    }

    /// The bytes.
    pub fn as_slice(&self) -> &[u8]
        ensures { result.now ≡ self.now }
    {
        if self.used > 0 {
            &self.few[..self.used]
        } else {
            self.many.as_slice()
        }
    }
}
