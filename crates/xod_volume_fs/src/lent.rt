//! The lists of the leases that are out, the newest first.
ghost use Rattle.std.specs.Prelude.{◌≡◌, ◌∷◌, IfOk, is_ok, if◌then◌else◌};
ghost use Rattle.xod_volume.specs.Leases.{holds_file, without};

use std::alloc::Global;
use xod_base::{Listed, Memory};

/// A list of the same numbers.
pub fn copy_of(alloc: Global, list: &[u64]) -> Result<Listed<u64>, Memory>
    ensures { IfOk result (λ copy. copy ≡ list.now) }
{
    Ok(Listed::from_vec(Vec::from_slice(alloc, list)?))
}

/// Puts a list before the others. A refusal leaves them as they were.
pub fn put_first(lists: &mut Vec<Listed<u64>>, list: Listed<u64>) -> Result<(), Memory>
    ensures { lists.new.items ≡ (if is_ok result then list ∷ lists.old.items else lists.old.items) }
{
    lists.insert(0, list)?;
    Ok(())
}

/// Whether one of the lists names the file.
pub fn any_names(lists: &[Listed<u64>], file: u64) -> bool
    ensures { result ≡ holds_file lists.now file }
{
    for list in lists {
        if list.as_slice().contains(&file) {
            return true;
        }
    }
    false
}

/// Takes off the first of the lists that is this one, where there is one.
pub fn take_off(lists: &mut Vec<Listed<u64>>, list: &[u64])
    ensures { lists.new.items ≡ without list.now lists.old.items }
{
    for at in 0..lists.len() {
        if lists[at].as_slice() == list {
            lists.remove(at);
            return;
        }
    }
}
