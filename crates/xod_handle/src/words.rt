//! The words before the parts of a query.
ghost use Rattle.std.specs.Prelude.{◌≡◌, ◌++◌, ◌∷◌, [], OnOk, decimal};
ghost use Rattle.xod_base.specs.QueryTexts.{direction_text};

use std::alloc::Global;
use xod_base::{Bytes, Direction, Memory, Text};

/// Puts a word, a name and a space at the end.
pub fn push_name(out: &mut Bytes, word: &[u8], name: &Text) -> Result<(), Memory>
    ensures { OnOk result (out.new ≡ out.old ++ (word.now ++ (name.now ++ 32 ∷ []))) }
{
    out.extend(word)?;
    out.extend(name.as_bytes())?;
    out.push(b' ')?;
    Ok(())
}

/// Puts a direction and a space at the end.
pub fn push_direction(out: &mut Bytes, direction: Direction) -> Result<(), Memory>
    ensures { OnOk result (out.new ≡ out.old ++ (direction_text direction ++ 32 ∷ [])) }
{
    match direction {
        Direction::Up => out.extend(b"up "),
        Direction::Down => out.extend(b"down "),
    }
}

/// Puts a word, a number and a space at the end.
#[inline(never)]
pub fn push_count(alloc: Global, out: &mut Bytes, word: &[u8], count: u32) -> Result<(), Memory>
    ensures { OnOk result (out.new ≡ out.old ++ (word.now ++ (decimal count ++ 32 ∷ []))) }
{
    let text = format!(in alloc; "{count} ")?;
    out.extend(word)?;
    out.extend(text.as_bytes())?;
    Ok(())
}
