//! Many writes at once, of which either all are made or none.
//!
//! What each write took the place of is kept until all are made. Where memory is refused on the way, the writes made by
//! then are taken back from the last to the first, which takes no memory.
ghost use Rattle.std.specs.Prelude.{◌≡◌, ◌++◌, ◌∷◌, [], is_ok, if◌then◌else◌};
ghost use Rattle.xod_overlay.specs.Marks.{all_touching, touched, touching};
ghost use Rattle.xod_overlay.specs.Restoring.{undone};

use crate::overlay::Overlay;
use crate::write::{Write, WriteList};
use std::alloc::Global;
use xod_base::{Bytes, Memory};

/// A write that was made, by what it took the place of: the mark that stood at its key, and `None` where the key was not
/// touched.
#[derive(Debug, Drop)]
pub(crate) struct Undo {
    tree: u8,
    key: Bytes,
    before: Option<Option<Bytes>>,
}

impl Overlay {
    /// Makes a write, and keeps what it took the place of. A refusal leaves the overlay and what is kept as they were.
    fn write(&mut self, alloc: Global, write: Write, made: &mut Vec<Undo>) -> Result<(), Memory>
        ensures touches { touched self.new ≡ (if is_ok result then touching (touched self.old) write.tree write.key write.value else touched self.old) }
        ensures undone { undone (touched self.new) made.new.items ≡ undone (touched self.old) made.old.items }
    {
        made.reserve(1)?;
        let Write { tree, key, value } = write;
        let before = self.exchange(alloc, tree, key.as_slice(), value)?;
        // Room was made for it, so this is never refused.
        made.push(Undo { tree, key, before })?;
        Ok(())
    }

    /// Takes writes back, from the last to the first. Takes no memory.
    fn undo(&mut self, made: Vec<Undo>)
        ensures { touched self.new ≡ undone (touched self.old) made.items }
    {
        let mut left = made;
        'back: while let Some(Undo { tree, key, before }) = left.pop() {
            self.restore(tree, key.as_slice(), before);
        }
    }

    /// Touches the key of each write in turn, with its value or a removal mark. A refusal leaves the overlay as it was.
    pub fn write_all(&mut self, alloc: Global, writes: WriteList) -> Result<(), Memory>
        ensures { touched self.new ≡ (if is_ok result then all_touching (touched self.old) writes else touched self.old) }
    {
        let mut made = Vec::new(alloc);
        for write in writes.into_vec() {
            if let Err(refused) = self.write(alloc, write, &mut made) {
                self.undo(made);
                return Err(refused);
            }
        }
        Ok(())
    }
}
