//! The names of files in their folder: file n is `n.log`, with n in decimal digits.
//!
//! Every other name is somebody else's. What a file and the lock are called, and their paths, stand in
//! `specs/Names.antt`.
ghost use Rattle.std.specs.Prelude.{◌≡◌, ◌≢◌, ◌<◌, ◌^◌, ℕ, IfOk, IfSome, IsNone, string_bytes};
ghost use Rattle.xod_volume_fs.specs.Names.{file_name, lock_name, path_in};

use std::alloc::Global;
use xod_base::Memory;

/// The name of a file.
fn name_of(alloc: Global, file: u64) -> Result<String, Memory>
    ensures { IfOk result (λ name. string_bytes name ≡ file_name file) }
{
    Ok(format!(in alloc; "{file}.log")?)
}

/// The number of the file that has this name; `None` where no file has it.
pub fn number_of(alloc: Global, name: &str) -> Result<Option<u64>, Memory>
    ensures own_name { IfOk result (λ found. IfSome found (λ file. name.now ≡ file_name file)) }
    ensures none_is_missed { IfOk result (λ found. IsNone found
        → (file : ℕ) → file < 2 ^ 64 → name.now ≢ file_name file) }
{
    let Some(digits) = name.strip_suffix(".log") else {
        return Ok(None);
    };
    let Ok(file) = digits.parse::<u64>() else {
        return Ok(None);
    };
    let own = name_of(alloc, file)?;
    if own.as_str() == name {
        Ok(Some(file))
    } else {
        Ok(None)
    }
}

/// The path of a file in a folder.
pub fn path_of(alloc: Global, folder: &str, file: u64) -> Result<String, Memory>
    ensures { IfOk result (λ path. string_bytes path ≡ path_in folder.now (file_name file)) }
{
    Ok(format!(in alloc; "{folder}/{file}.log")?)
}

/// The path of the lock in a folder.
pub fn lock_path(alloc: Global, folder: &str) -> Result<String, Memory>
    ensures { IfOk result (λ path. string_bytes path ≡ path_in folder.now lock_name) }
{
    Ok(format!(in alloc; "{folder}/lock")?)
}
