//! What an opening finds on a volume.
use super::store::number_told;
use std::alloc::Global;
use std::test::Fail;
use xod_base::{Place, ReadError, TreeView};
use xod_env::Env;
use xod_recover::OpenError;
use xod_trial::TARGET;
use xod_volume::{Crash, MemoryVolume, Volume};

/// What a crash may leave, by each choice.
pub(crate) const CHOICES: [Crash; 3] = [Crash::Kept, Crash::Lost, Crash::Scrambled];

/// What an opening finds, and a pinned snapshot then reads.
#[derive(Clone, Copy, Debug, PartialEq, Eq)]
pub(crate) enum Seen {
    /// The numbered commit whose rows are there.
    Commit(u8),
    /// A commit whose rows are those of no numbered one, and how many pairs all its trees have.
    Other { commit: u64, pairs: u64 },
    /// The first bad place.
    Damaged(Place),
    /// A call failed.
    Failed,
}

/// How many pairs a tree has, up to eight.
fn pairs_in<T: TreeView>(alloc: Global, view: &mut T, tree: u8) -> Result<u64, ReadError> {
    let mut found = view.seek(alloc, tree, b"")?;
    for count in 0..8u64 {
        match found {
            None => return Ok(count),
            Some(pair) => found = view.next(alloc, tree, pair.key.as_slice())?,
        }
    }
    Ok(8)
}

/// What a view of a commit has.
pub(crate) fn seen_in<T: TreeView>(
    alloc: Global,
    view: &mut T,
    commit: u64,
) -> Result<Seen, ReadError> {
    if let Some(number) = number_told(alloc, view)?
        && u64::from(number) == commit
    {
        return Ok(Seen::Commit(number));
    }
    let mut pairs = 0u64;
    for tree in 1..=8u8 {
        pairs = pairs.saturating_add(pairs_in(alloc, view, tree)?);
    }
    Ok(Seen::Other { commit, pairs })
}

/// What a pinned snapshot reads.
fn seen_by<V: Volume>(alloc: Global, env: &mut Env<V>) -> Seen {
    let Ok(mut snapshot) = env.pin(alloc) else {
        return Seen::Failed;
    };
    let commit = snapshot.version;
    let seen = seen_in(alloc, &mut snapshot, commit);
    env.unpin(snapshot);
    match seen {
        Ok(seen) => seen,
        Err(_) => Seen::Failed,
    }
}

/// What is seen where an opening was refused.
fn refused(cause: OpenError) -> Seen {
    match cause {
        OpenError::Damaged(place) => Seen::Damaged(place),
        _ => Seen::Failed,
    }
}

/// Opens a volume, reads it, and closes it.
pub(crate) fn look<V: Volume>(alloc: Global, volume: V) -> (V, Seen) {
    match Env::open(alloc, volume, TARGET) {
        Ok(mut env) => {
            let seen = seen_by(alloc, &mut env);
            let (volume, closed) = env.close();
            (volume, if closed.is_ok() { seen } else { Seen::Failed })
        }
        Err((volume, cause)) => (volume, refused(cause)),
    }
}

/// What is seen in an image of a moment.
pub(crate) fn seen_after(
    alloc: Global,
    volume: &MemoryVolume,
    moment: u64,
    choice: Crash,
) -> Result<Seen, Fail> {
    if volume.moment() < moment {
        return Err(Fail::from("a moment to come"));
    }
    let image = volume.crash(moment, choice)?;
    let (_, seen) = look(alloc, image);
    Ok(seen)
}
