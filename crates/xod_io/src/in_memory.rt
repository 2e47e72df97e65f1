//! A source and a sink in memory, which tell their bytes and fail at chosen calls.
//!
//! Tests hand them to whatever reads or writes, and learn from them what was read, what was written and how often a
//! call failed. The words for what they hold stand in `specs/InMemory.antt`.
ghost use Rattle.std.specs.Prelude.{◌≡◌, ◌↔◌, ◌+◌, ◌≤◌, ◌++◌, ℕ, [], min, length, take, IfOk, OnOk, OnErr, IsErr, is_ok, Some};
ghost use Rattle.std.specs.Io.{ReadsAtMost};
ghost use Rattle.std.specs.Io.KnownBytes.{ReadConsumes};
ghost use Rattle.xod_base.specs.Causes.{HasCause};
ghost use Rattle.xod_io.specs.Outside.{Writes};

use crate::plan::Plan;
use crate::{Sink, Source};
use std::alloc::Global;
use xod_base::{Bytes, Failed, Memory};

/// A source in memory. It takes no memory to read, and fails exactly at the calls that it was told.
#[derive(Debug, Drop)]
pub struct MemorySource {
    bytes: Bytes,
    at: usize,
    plan: Plan,
    ghost within: { at ≤ length bytes },
}

/// A sink in memory. It fails at the calls that it was told, and where memory is refused. A failed write leaves its bytes
/// as they were.
#[derive(Debug, Drop)]
pub struct MemorySink {
    bytes: Bytes,
    plan: Plan,
}

/// Copies as many bytes as both have, and answers how many.
fn copy_front(from: &[u8], out: &mut [u8]) -> usize
    ensures count { result ≡ min (length from.now) (length out.old) }
    ensures same_length { length out.new ≡ length out.old }
    ensures copied { take result out.new ≡ take result from.now }
{
    let count = from.len().min(out.len());
    let (front, _) = out.split_at_mut(count);
    front.copy_from_slice(&from[..count]);
    count
}

impl MemorySource {
    ghost use Rattle.xod_io.specs.InMemory.{bytes_left};
    ghost use Rattle.xod_io.specs.Plan.{fresh_plan};

    /// A source of these bytes. The calls of `read` with these numbers fail, counted from 0.
    pub fn new(alloc: Global, bytes: &[u8], failing: &[u64]) -> Result<MemorySource, Memory>
        ensures bytes { IfOk result (λ source. bytes_left source ≡ bytes.now) }
        ensures plan { IfOk result (λ source. source.plan ≡ fresh_plan failing.now) }
    {
        Ok(MemorySource {
            bytes: Bytes::from_vec(Vec::from_slice(alloc, bytes)?),
            at: 0,
            plan: Plan::new(alloc, failing)?,
        })
    }

    /// The bytes that reads will give.
    pub fn left(&self) -> &[u8]
        ensures { result.now ≡ bytes_left self.now }
    {
        self.bytes.as_slice().split_at(self.at).1
    }

    /// How many calls failed.
    pub fn faults(&self) -> u64
        ensures { result ≡ self.now.plan.faults }
    {
        self.plan.faults()
    }
}

impl Source for MemorySource {
    ghost use Rattle.xod_io.specs.InMemory.{bytes_left};
    ghost use Rattle.xod_io.specs.Plan.{FailsNext, after_call};

    ghost left = { λ source. Some (bytes_left source) };

    ghost faults = { λ source. source.plan.faults };

    ghost refs = { λ _. [] };

    fn read(&mut self, out: &mut [u8]) -> Result<usize, Failed>
        ensures within { ReadsAtMost result out.new }
        ensures bytes { ReadConsumes (Some (bytes_left self.old)) (Some (bytes_left self.new))
            result out.new }
        ensures cause { HasCause self.old.plan.faults self.new.plan.faults result }
        ensures no_fault_at_ok { OnOk result (self.new.plan.faults ≡ self.old.plan.faults) }
        ensures failed_exactly_where_listed { IsErr result ↔ FailsNext self.old.plan }
        ensures counted { self.new.plan ≡ after_call self.old.plan (is_ok result) }
        ensures as_many_as_there_are { IfOk result
            (λ count. count ≡ min (length (bytes_left self.old)) (length out.old)) }
    {
        self.plan.begin()?;
        let (_, left) = self.bytes.as_slice().split_at(self.at);
        let count = copy_front(left, out);
        self.at += count;
        Ok(count)
    }
}

impl MemorySink {
    ghost use Rattle.xod_io.specs.InMemory.{bytes_written};
    ghost use Rattle.xod_io.specs.Plan.{fresh_plan};

    /// A sink without bytes. The calls of `write` with these numbers fail, counted from 0.
    pub fn new(alloc: Global, failing: &[u64]) -> Result<MemorySink, Memory>
        ensures bytes { IfOk result (λ sink. bytes_written sink ≡ []) }
        ensures plan { IfOk result (λ sink. sink.plan ≡ fresh_plan failing.now) }
    {
        Ok(MemorySink {
            bytes: Bytes::new(alloc),
            plan: Plan::new(alloc, failing)?,
        })
    }

    /// The bytes that were written.
    pub fn bytes(&self) -> &[u8]
        ensures { result.now ≡ bytes_written self.now }
    {
        self.bytes.as_slice()
    }

    /// How many calls failed.
    pub fn faults(&self) -> u64
        ensures { result ≡ self.now.plan.faults }
    {
        self.plan.faults()
    }
}

impl Sink for MemorySink {
    ghost use Rattle.xod_io.specs.InMemory.{bytes_written};
    ghost use Rattle.xod_io.specs.Plan.{FailsNext, after_call};

    ghost written = { λ sink. Some (bytes_written sink) };

    ghost faults = { λ sink. sink.plan.faults };

    ghost refs = { λ _. [] };

    fn write(&mut self, bytes: &[u8]) -> Result<usize, Failed>
        ensures bytes { Writes bytes.now (Some (bytes_written self.old))
            (Some (bytes_written self.new)) result }
        ensures cause { HasCause self.old.plan.faults self.new.plan.faults result }
        ensures no_fault_at_ok { OnOk result (self.new.plan.faults ≡ self.old.plan.faults) }
        ensures failed_where_listed { FailsNext self.old.plan → IsErr result }
        ensures counted { self.new.plan ≡ after_call self.old.plan (is_ok result) }
        ensures all { IfOk result (λ count. count ≡ length bytes.now) }
        ensures failed_appends_nothing { OnErr
            result (bytes_written self.new ≡ bytes_written self.old) }
    {
        self.plan.begin()?;
        if self.bytes.extend(bytes).is_err() {
            self.plan.fail();
            return Err(Failed);
        }
        Ok(bytes.len())
    }
}
