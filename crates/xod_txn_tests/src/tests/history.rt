//! A list of acts on plain rows and on transactions, act by act and commit by commit.
use super::both::{contents_alike, first_unlike};
use super::list::{FIRST, SECOND, THIRD};
use std::alloc::Global;
use std::test::Fail;
use xod_base::{Memory, Mode};
use xod_env::{Env, EnvError, FlushError, Flushed};
use xod_estxn::EntityTxn;
use xod_model::Rows;
use xod_trial::{Given, TARGET, commit, snapshot_of};
use xod_volume::{MemoryVolume, Volume};

/// Whether a transaction begins with the contents of the rows, and the place of the first act behind which it has
/// others.
type Compared = Result<(bool, Option<usize>), Memory>;

/// A transaction on the newest commit with these acts, which the rows make too.
fn compare<V: Volume>(
    alloc: Global,
    env: &mut Env<V>,
    rows: &mut Rows,
    acts: &[Given],
) -> Result<Compared, EnvError> {
    let (snapshot, adapter) = snapshot_of(env, alloc)?;
    let mut txn = EntityTxn::new(alloc, snapshot, adapter, Mode::Ordinary);
    let compared = match contents_alike(alloc, rows, &mut txn) {
        Ok(began) => match first_unlike(alloc, rows, &mut txn, acts) {
            Ok(unlike) => Ok((began, unlike)),
            Err(refused) => Err(refused),
        },
        Err(refused) => Err(refused),
    };
    let (snapshot, _) = txn.into_parts();
    env.unpin(snapshot);
    Ok(compared)
}

/// What a transaction came to: how it compared with the rows, and what became of its acts once they were committed.
#[derive(Drop)]
struct Outcome {
    began: bool,
    unlike: Option<usize>,
    flushed: Result<Flushed, FlushError>,
}

/// Opens the store on a volume, compares a transaction, commits one with the same acts, and closes the store.
fn run(
    alloc: Global,
    volume: MemoryVolume,
    rows: &mut Rows,
    acts: &[Given],
) -> Result<(MemoryVolume, Outcome), Fail> {
    let Ok(mut env) = Env::open(alloc, volume, TARGET) else {
        return Err(Fail::from("not opened"));
    };
    let compared = compare(alloc, &mut env, rows, acts);
    let flushed = commit(&mut env, alloc, acts);
    let (volume, closed) = env.close();
    closed?;
    let (began, unlike) = compared??;
    Ok((
        volume,
        Outcome {
            began,
            unlike,
            flushed,
        },
    ))
}

#[test]
fn acts_have_the_answers_of_plain_rows(rt: HostRuntime) -> Result<(), Fail> {
    let alloc = rt.alloc();
    let mut rows = Rows::empty(alloc);
    let mut volume = MemoryVolume::new(alloc)?;
    for (acts, version) in [(FIRST, 1), (SECOND, 2), (THIRD, 3)] {
        let (left, outcome) = run(alloc, volume, &mut rows, acts)?;
        volume = left;
        assert!(rt; outcome.began, "before commit {version}");
        assert_eq!(rt; outcome.unlike, None, "an act of commit {version}");
        assert_eq!(rt; outcome.flushed, Ok(Flushed::Commit { version }));
    }
    let (_, outcome) = run(alloc, volume, &mut rows, &[])?;
    assert!(rt; outcome.began, "behind the last commit");
    assert_eq!(rt; outcome.flushed, Ok(Flushed::Nothing));
    Ok(())
}
