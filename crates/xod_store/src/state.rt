//! The state of a store.
ghost use Rattle.std.specs.Prelude.{◌≡◌, [], IfErr, IfOk, IsTrue, OnOk, true, vec_len, vec_capacity};
ghost use Rattle.std.specs.FinMap.{contains_key, empty};
ghost use Rattle.std.proofs.Props.{props};
ghost use Rattle.xod_env.specs.EnvCalls.{Refuses};
ghost use Rattle.xod_env.specs.Envs.{env_trees, log_file_count};
ghost use Rattle.xod_journal.specs.Standing.{newest_after};
ghost use Rattle.xod_log.specs.Ends.{body_of};
ghost use Rattle.xod_log.specs.Standing.{is_last, last_file};
ghost use Rattle.xod_recover.specs.Images.{Settled};
ghost use Rattle.xod_volume.specs.Files.{Files};
ghost use Rattle.xod_volume.specs.Leases.{Stays};
ghost use Rattle.xod_store.specs.Facts.{same_kept, same_kinds, same_rows};
ghost use Rattle.xod_store.specs.Images.{Holds, HoldsEarlier, IsPrefix, LeavesPrefixes, commit_left};
ghost use Rattle.xod_store.specs.Parts.{IsAccounted, IsBooked, IsSafe, IsTold};
ghost use Rattle.xod_store.specs.Starts.{MayStart};
ghost use Rattle.xod_store.specs.Views.{env_newest, is_spent};

use std::alloc::Global;
use std::snapshot::Snapshot;
use xod_books::{TxnMap, with_room};
use xod_cache::{Adapter, copy_names};
use xod_env::{Env, EnvError, settled_volumes_are_steady};
use xod_estxn::EntityTxn;
use xod_journal::JournalEntry;
use xod_volume::Volume;

/// An open transaction of a store: it sees a snapshot of the commit that it began at.
pub type StoreTxn<V> = EntityTxn<xod_env::Snapshot<<V as Volume>::Held>>;

/// What a store was when its state was made. Contracts alone see it, but for the number of sessions.
#[derive(Drop)]
pub struct Start<V: Volume> {
    pub origin: Snapshot<Env<V>>,
    pub sessions: u32,
}

/// A store: its environment, and the journal of what was done to it since its state was made.
///
/// It is not dropped: `close` hands the volume and the journal back.
pub struct StoreState<V: Volume> {
    pub env: Env<V>,
    /// The adapter of the newest commit.
    pub adapter: Adapter,
    pub journal: Vec<JournalEntry>,
    /// The open transactions by their actors.
    pub open_txns: TxnMap,
    pub start: Start<V>,
    ghost tells: { V.tells env.volume ≡ V.tells start.origin.value.volume },
    ghost accounted: { IsAccounted journal.items (V.faults start.origin.value.volume)
        (V.faults env.volume) env.is_broken (is_spent env.log env.commit) },
    ghost booked: { IsBooked (env_newest start.origin.value.log
        (V.files start.origin.value.volume) start.origin.value.roots start.origin.value.commit)
        journal.items env.commit open_txns start.sessions
        (vec_len journal) (vec_capacity journal) } by { Prim.hlevel (props, same_kept) },
    ghost told: { IsTrue (V.tells env.volume) → IsTold (env_newest start.origin.value.log
        (V.files start.origin.value.volume) start.origin.value.roots start.origin.value.commit)
        journal.items (env_trees env.log.file (V.files env.volume) env.roots)
        adapter.names } by { Prim.hlevel (props, same_rows, same_kinds) },
    ghost safe: { IsTrue (V.tells env.volume) → Settled (V.files start.origin.value.volume)
        (V.may_leave start.origin.value.volume (V.moment start.origin.value.volume))
        → IsSafe (env_newest start.origin.value.log (V.files start.origin.value.volume)
        start.origin.value.roots start.origin.value.commit) journal.items
        (V.moment start.origin.value.volume) (V.moment env.volume) env.is_broken env.log
        (V.files env.volume) (V.may_leave start.origin.value.volume)
        (V.may_leave env.volume) } by { Prim.hlevel (props, same_rows) },
}

impl<V: Volume> StoreState<V> {
    /// A store over an environment, for so many sessions. It makes the room for one stop of each. A refusal, which is want
    /// of memory, hands the environment back as it was.
    pub fn new(alloc: Global, env: Env<V>, sessions: u32) -> Result<Self, Env<V>>
        requires { MayStart (V.tells env.volume) env.is_broken env.log (V.files env.volume)
            env.roots env.commit env.kinds }
        ensures env { IfOk result (λ store. store.env ≡ env) }
        ensures origin { IfOk result (λ store. store.start.origin.value ≡ env) }
        ensures sessions { IfOk result (λ store. store.start.sessions ≡ sessions) }
        ensures journal { IfOk result (λ store. store.journal.items ≡ []) }
        ensures back { IfErr result (λ back. back ≡ env) }
    {
        let Ok(names) = copy_names(alloc, env.kinds().as_slice()) else {
            return Err(env);
        };
        let Ok(journal) = with_room(alloc, sessions as usize) else {
            return Err(env);
        };
        settled_volumes_are_steady::<V>();
        let origin = Snapshot::of(&env);
        Ok(StoreState {
            env,
            adapter: Adapter::over(names),
            journal,
            open_txns: TxnMap::new(alloc),
            start: Start { origin, sessions },
        })
    }

    /// Makes the newest commit outlive a crash, and hands the volume and the journal back. No transaction is open.
    pub fn close(self) -> (V, Vec<JournalEntry>, Result<(), EnvError>)
        requires { self.open_txns ≡ empty }
        ensures journal { result.1.items ≡ self.journal.items }
        ensures refusals { Refuses self.env.is_broken (V.faults self.env.volume)
            (V.faults result.0) result.2 }
        ensures broken_seals_nothing { self.env.is_broken ≡ true → result.0 ≡ self.env.volume }
        ensures stays { Stays (V.tells self.env.volume) (V.tells result.0)
            (V.leases self.env.volume) (V.leases result.0)
            (V.refs self.env.volume) (V.refs result.0)
            (V.faults self.env.volume) (V.faults result.0) }

        // What it leaves.
        ensures holds { IsTrue (V.tells self.env.volume) → OnOk result.2 (Holds
            (V.files result.0) (newest_after (env_newest self.start.origin.value.log
            (V.files self.start.origin.value.volume) self.start.origin.value.roots
            self.start.origin.value.commit) self.journal.items)) }
        ensures counted { IsTrue (V.tells self.env.volume)
            → log_file_count (V.files result.0) ≡ self.env.file_count }
        ensures last { IsTrue (V.tells self.env.volume) → is_last self.env.log ≡ true
            → contains_key (V.files result.0) (body_of last_file) ≡ true }

        // What a crash may leave.
        ensures leaves { IsTrue (V.tells self.env.volume)
            → Settled (V.files self.start.origin.value.volume)
            (V.may_leave self.start.origin.value.volume (V.moment self.start.origin.value.volume))
            → LeavesPrefixes (env_newest self.start.origin.value.log
            (V.files self.start.origin.value.volume) self.start.origin.value.roots
            self.start.origin.value.commit) self.journal.items
            (V.moment self.start.origin.value.volume) (V.moment result.0) (V.may_leave result.0) }
        ensures begins { IsTrue (V.tells self.env.volume) → (left : Files)
            → Holds left (env_newest self.start.origin.value.log
            (V.files self.start.origin.value.volume) self.start.origin.value.roots
            self.start.origin.value.commit)
            → IsPrefix (env_newest self.start.origin.value.log
            (V.files self.start.origin.value.volume) self.start.origin.value.roots
            self.start.origin.value.commit) self.journal.items left }
        ensures earlier { IsTrue (V.tells self.env.volume)
            → Settled (V.files self.start.origin.value.volume)
            (V.may_leave self.start.origin.value.volume (V.moment self.start.origin.value.volume))
            → HoldsEarlier (env_newest self.start.origin.value.log
            (V.files self.start.origin.value.volume) self.start.origin.value.roots
            self.start.origin.value.commit) (V.moment self.start.origin.value.volume)
            (V.may_leave self.start.origin.value.volume) (V.may_leave result.0) }
        ensures durable { IsTrue (V.tells self.env.volume)
            → Settled (V.files self.start.origin.value.volume)
            (V.may_leave self.start.origin.value.volume (V.moment self.start.origin.value.volume))
            → OnOk result.2 ((left : Files) → V.may_leave result.0 (V.moment result.0) left
            → commit_left left ≡ self.env.commit) }
        ensures settled { IsTrue (V.tells self.env.volume)
            → Settled (V.files self.start.origin.value.volume)
            (V.may_leave self.start.origin.value.volume (V.moment self.start.origin.value.volume))
            → OnOk result.2 (Settled (V.files result.0)
            (V.may_leave result.0 (V.moment result.0))) }
    {
        let StoreState {
            env,
            adapter: _,
            journal,
            open_txns: _,
            start: _,
        } = self;
        let (volume, answer) = env.close();
        (volume, journal, answer)
    }
}
