//! What a crash at each moment of a store's life leaves, also where a call of the device fails.
use super::seen::{CHOICES, Seen, seen_after};
use super::store::commit_next;
use std::alloc::Global;
use std::test::Fail;
use xod_env::{Env, EnvError, FlushError, Flushed};
use xod_recover::OpenError;
use xod_trial::TARGET;
use xod_volume::MemoryVolume;

/// One step of a store's life.
#[derive(Clone, Copy)]
enum Step {
    Commit,
    Sync,
}

/// A life with three commits, of which the second and the third begin with a roll.
const LIFE: [Step; 4] = [Step::Commit, Step::Commit, Step::Sync, Step::Commit];

/// What was answered in a life.
#[derive(Clone, Copy, Debug, PartialEq, Eq)]
struct Answers {
    /// The newest commit.
    committed: u64,
    /// The newest one when what was sealed was told to be.
    synced: u64,
    /// How many calls the device failed in.
    failed: u64,
    /// How many found the store broken after that.
    broken: u64,
    /// How many answered what they are never to answer.
    wrong: u64,
}

impl Answers {
    fn none() -> Self {
        Answers {
            committed: 0,
            synced: 0,
            failed: 0,
            broken: 0,
            wrong: 0,
        }
    }

    fn add_failed(&mut self) {
        self.failed = self.failed.saturating_add(1);
    }

    /// Once more the store was broken, which only comes behind a failure.
    fn add_broken(&mut self) {
        self.broken = self.broken.saturating_add(1);
        if self.failed == 0 {
            self.add_wrong();
        }
    }

    fn add_wrong(&mut self) {
        self.wrong = self.wrong.saturating_add(1);
    }

    /// What was done, which nothing is once the store is broken.
    fn add_done(&mut self) {
        if self.broken != 0 {
            self.add_wrong();
        }
    }

    fn add_refused(&mut self, cause: OpenError) {
        match cause {
            OpenError::Device => self.add_failed(),
            _ => self.add_wrong(),
        }
    }

    fn add_flush(&mut self, answer: Result<Flushed, FlushError>) {
        match answer {
            Ok(Flushed::Commit { version }) if version == self.committed.saturating_add(1) => {
                self.committed = version;
                self.add_done();
            }
            Err(FlushError::Device) => self.add_failed(),
            Err(FlushError::Broken) => self.add_broken(),
            _ => self.add_wrong(),
        }
    }

    fn add_sync(&mut self, answer: Result<(), EnvError>) {
        match answer {
            Ok(()) => {
                self.synced = self.committed;
                self.add_done();
            }
            Err(EnvError::Device) => self.add_failed(),
            Err(EnvError::Broken) => self.add_broken(),
            Err(_) => self.add_wrong(),
        }
    }
}

/// A life on a volume without files, to the close.
fn live(alloc: Global, volume: MemoryVolume, life: &[Step]) -> (MemoryVolume, Answers) {
    let mut answers = Answers::none();
    let mut env = match Env::open(alloc, volume, TARGET) {
        Ok(env) => env,
        Err((volume, cause)) => {
            answers.add_refused(cause);
            return (volume, answers);
        }
    };
    for step in life {
        match step {
            Step::Commit => answers.add_flush(commit_next(&mut env, alloc)),
            Step::Sync => answers.add_sync(env.sync()),
        }
    }
    let (volume, closed) = env.close();
    answers.add_sync(closed);
    (volume, answers)
}

/// The volume after the first steps of the life, and the close.
fn lived(alloc: Global, steps: usize) -> Result<MemoryVolume, Fail> {
    let volume = MemoryVolume::new(alloc)?;
    let life = LIFE.get(..steps).ok_or("no such steps")?;
    let (volume, answers) = live(alloc, volume, life);
    if answers.wrong == 0 && answers.failed == 0 && answers.synced == answers.committed {
        Ok(volume)
    } else {
        Err(Fail::from("a call failed"))
    }
}

/// How many images of a moment are not those of a numbered commit, from this one to that one.
fn astray_at(
    alloc: Global,
    volume: &MemoryVolume,
    moment: u64,
    least: u64,
    most: u64,
) -> Result<u64, Fail> {
    let mut astray = 0u64;
    for choice in CHOICES {
        match seen_after(alloc, volume, moment, choice)? {
            Seen::Commit(number) if least <= u64::from(number) && u64::from(number) <= most => {}
            _ => astray = astray.saturating_add(1),
        }
    }
    Ok(astray)
}

#[test]
fn a_gate_that_is_not_synced_is_there_or_not(rt: HostRuntime) -> Result<(), Fail> {
    let alloc = rt.alloc();
    let volume = lived(alloc, 1)?;
    // The last call was the sync of the gate.
    let moment = volume.moment().saturating_sub(1);
    let seen = [
        seen_after(alloc, &volume, moment, CHOICES[0])?,
        seen_after(alloc, &volume, moment, CHOICES[1])?,
        seen_after(alloc, &volume, moment, CHOICES[2])?,
    ];
    assert_eq!(rt; seen, [Seen::Commit(1), Seen::Commit(0), Seen::Commit(1)]);
    Ok(())
}

#[test]
fn each_image_is_that_of_a_commit_not_before_the_last_synced(rt: HostRuntime) -> Result<(), Fail> {
    let alloc = rt.alloc();
    // Commit 1 is synced by the roll of the second flush, and commit 2 by the sync.
    let first = lived(alloc, 1)?.moment();
    let second = lived(alloc, 2)?.moment();
    let volume = lived(alloc, 4)?;
    let last = volume.moment();
    assert!(rt; first < second && second < last);
    for moment in 0..=last {
        let least = if moment < first {
            0
        } else if moment < second {
            1
        } else if moment < last {
            2
        } else {
            3
        };
        assert_eq!(rt;
            astray_at(alloc, &volume, moment, least, least + 1)?,
            0,
            "at {moment}"
        );
    }
    Ok(())
}

#[test]
fn each_call_fails_in_turn_and_the_images_are_good(rt: HostRuntime) -> Result<(), Fail> {
    let alloc = rt.alloc();
    let mut calls = 0u64;
    for call in 0..200u64 {
        let volume = MemoryVolume::failing(alloc, &[call])?;
        let (volume, answers) = live(alloc, volume, &LIFE);
        assert_eq!(rt; answers.wrong, 0, "call {call} fails");
        if answers.failed == 0 {
            assert_eq!(rt; (answers.synced, volume.faults()), (3, 0));
            break;
        }
        calls = calls.saturating_add(1);
        assert_eq!(rt;
            (answers.failed, volume.faults()),
            (1, 1),
            "call {call} fails"
        );
        assert_eq!(rt;
            astray_at(
                alloc,
                &volume,
                volume.moment(),
                answers.synced,
                answers.committed.saturating_add(1)
            )?,
            0,
            "call {call} fails"
        );
    }
    assert!(rt; calls < 200);
    Ok(())
}
