//! A source and a sink in memory.

ghost use Rattle.std.specs.Prelude.{◌≡◌, ℕ, List, [], ◌<◌, ◌≤◌, min, drop, length, Some, IfOk, IsErrOf};
ghost use Rattle.std.specs.Io.{ReadsAtMost, WritesAtMost};
ghost use Rattle.std.specs.Io.KnownBytes.{ReadConsumes, WriteAppends};
ghost use Rattle.dbn_io.specs.Causes.{HasCause, is_failed};
ghost use Rattle.dbn_io.specs.Memory.{MemoryLeft, MemoryTaken, after_call, begun, fails_next};
ghost use Rattle.dbn_model.specs.Content.{SameTold};

use crate::lists::{Bytes, Calls};
use crate::plan::FaultPlan;
use crate::sink::Sink;
use crate::source::Source;
use crate::trouble::Trouble;
use std::alloc::Global;
use std::marker::Model;

/// A source in memory, which tells its bytes. It fails exactly at the calls that it was told, and never for want of
/// memory; each other call gives as many bytes as are left and the buffer holds.
#[derive(Debug, Drop)]
pub struct MemSource {
    bytes: Bytes,
    at: usize,
    plan: FaultPlan,
}

impl Model for MemSource {
    ghost Value = { MemoryLeft };

    ghost view = { λ s. record { left = drop s.at s.bytes; plan = s.plan } };

    ghost invariant = { λ s. s.at ≤ length s.bytes };
}

impl MemSource {
    /// A source of `bytes`, whose calls with the numbers `fails`, from 0, are to fail.
    pub fn new(bytes: Bytes, fails: Calls) -> MemSource
        ensures bytes { result.left ≡ bytes }
        ensures fails { result.plan ≡ begun fails }
    {
        MemSource {
            bytes,
            at: 0,
            plan: FaultPlan::new(fails),
        }
    }
}

impl Source for MemSource {
    ghost left = { λ s. Some s.left };

    ghost faults = { λ s. s.plan.faults };

    fn read(&mut self, into: &mut [u8]) -> Result<usize, Trouble>
        ensures bound { ReadsAtMost result into.new }
        ensures bytes { ReadConsumes (Some self.old.left) (Some self.new.left) result into.new }
        ensures told { SameTold (Some self.old.left) (Some self.new.left) }
        ensures cause { HasCause self.old.plan.faults self.new.plan.faults result }
        ensures all { IfOk result (λ count. count ≡ min (length self.old.left) (length into.new)) }
        ensures failed { is_failed result ≡ fails_next self.old.plan }
        ensures memory { ¬ IsErrOf result Trouble.Memory }
        ensures counted { self.new.plan ≡ after_call self.old.plan }
        ensures no_faults { self.old.plan.fails ≡ [] → self.new.plan.faults ≡ self.old.plan.faults }
    {
        if self.plan.fails_next() {
            return Err(Trouble::Failed);
        }
        let (_, left) = self.bytes.as_slice().split_at(self.at);
        let count = left.len().min(into.len());
        let (given, _) = left.split_at(count);
        into[..count].copy_from_slice(given);
        self.at += count;
        Ok(count)
    }
}

/// A sink in memory, which tells what it has taken. It fails exactly at the calls that it was told; each other call
/// takes the whole piece, unless memory is wanting.
#[derive(Debug, Drop)]
pub struct MemSink {
    taken: Vec<u8>,
    plan: FaultPlan,
}

impl Model for MemSink {
    ghost Value = { MemoryTaken };

    ghost view = { λ s. record { taken = s.taken.items; plan = s.plan } };
}

impl MemSink {
    /// A sink that has taken nothing, whose calls with the numbers `fails`, from 0, are to fail.
    pub fn new(alloc: Global, fails: Calls) -> MemSink
        ensures taken { result.taken ≡ [] }
        ensures fails { result.plan ≡ begun fails }
    {
        MemSink {
            taken: Vec::new(alloc),
            plan: FaultPlan::new(fails),
        }
    }

    /// The bytes taken so far.
    pub fn taken(&self) -> &[u8]
        ensures { result.now ≡ self.now.taken }
    {
        self.taken.as_slice()
    }
}

impl Sink for MemSink {
    ghost taken = { λ s. Some s.taken };

    ghost faults = { λ s. s.plan.faults };

    fn write(&mut self, bytes: &[u8]) -> Result<usize, Trouble>
        ensures bound { WritesAtMost result bytes.now }
        ensures some { IfOk result (λ count. 0 < length bytes.now → 0 < count) }
        ensures bytes { WriteAppends (Some self.old.taken) (Some self.new.taken) result bytes.now }
        ensures told { SameTold (Some self.old.taken) (Some self.new.taken) }
        ensures cause { HasCause self.old.plan.faults self.new.plan.faults result }
        ensures whole { IfOk result (λ count. count ≡ length bytes.now) }
        ensures failed { is_failed result ≡ fails_next self.old.plan }
        ensures counted { self.new.plan ≡ after_call self.old.plan }
        ensures no_faults { self.old.plan.fails ≡ [] → self.new.plan.faults ≡ self.old.plan.faults }
    {
        if self.plan.fails_next() {
            return Err(Trouble::Failed);
        }
        match self.taken.extend_from_slice(bytes) {
            Ok(()) => Ok(bytes.len()),
            Err(_) => Err(Trouble::Memory),
        }
    }
}
