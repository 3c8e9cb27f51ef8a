//! A source and a sink in memory, which fail at listed calls.
ghost use Rattle.std.specs.Prelude.{◌≡◌, ◌⊎◌, ◌↔◌, ◌-◌, ◌<◌, ◌≤◌, [], length, take, drop, min, Ok, IfOk, OnErr, IsErr};
ghost use Rattle.std.specs.Prelude.{is_err, Contains, ◌++◌, if◌then◌else◌};
ghost use Rattle.pm_base.specs.Faults.{one_more};
ghost use Rattle.pm_io.specs.Memory.{source_view, sink_view, IsCall};
ghost use Rattle.pm_io.specs.Sink.{SinkFailed, SinkLater};
ghost use Rattle.pm_io.specs.Source.{SourceFailed, SourceLater, Reads, IsAtEnd};

use crate::{Failed, Sink, Source};
use std::alloc::{AllocError, Global};
use std::marker::Model;

/// A source that gives these bytes and fails at the listed calls, numbered from 1.
pub struct MemSource {
    bytes: Vec<u8>,
    at: usize,
    fails: Vec<u64>,
    calls: u64,
    faults: u64,
}

impl Drop for MemSource {
    fn drop(self) {
        let MemSource {
            bytes,
            at,
            fails,
            calls,
            faults,
        } = self;
    }
}

impl Model for MemSource {
    ghost use Rattle.std.specs.Prelude.{◌≤◌, drop, vec_len};
    ghost use Rattle.pm_io.specs.Memory.{Giving};

    ghost Value = { Giving };

    ghost view = { λ s. record {
      left = drop s.at s.bytes.items;
      fails = s.fails.items;
      calls = s.calls;
      faults = s.faults;
    } };

    ghost invariant = { λ s. s.at ≤ vec_len s.bytes };
}

impl MemSource {
    /// Gives these bytes.
    pub fn new(bytes: Vec<u8>, fails: Vec<u64>) -> MemSource
        ensures left { result.left ≡ bytes.items }
        ensures fails { result.fails ≡ fails.items }
        ensures calls { result.calls ≡ 0 }
        ensures faults { result.faults ≡ 0 }
    {
        MemSource {
            bytes,
            at: 0,
            fails,
            calls: 0,
            faults: 0,
        }
    }
}

impl Source for MemSource {
    ghost seen = { source_view };

    fn read(&mut self, into: &mut [u8]) -> Result<usize, Failed>
        ensures count { IfOk result (λ n. n ≤ length into.old) }
        ensures bytes { IfOk result (λ n. Reads (source_view self.old) n into.old into.new) }
        ensures rest { IfOk result (λ n. self.new.left ≡ drop n self.old.left) }
        ensures end { result ≡ Ok 0 → 0 < length into.old → IsAtEnd (source_view self.old) }
        ensures kept { OnErr result (self.new.left ≡ self.old.left) }
        ensures failed { OnErr result (SourceFailed (source_view self.old) (source_view self.new)) }
        ensures later { SourceLater (source_view self.old) (source_view self.new) }

        // It fails at the listed calls and at no other, and else gives as much as it can.
        ensures listed { IsErr result ↔ Contains self.old.fails (one_more self.old.calls) }
        ensures amount { IfOk result (λ n. n ≡ min (length into.old) (length self.old.left)) }
        ensures calls { self.new.calls ≡ one_more self.old.calls }
        ensures faults { self.new.faults ≡ (if is_err result then one_more self.old.faults else self.old.faults) }
        ensures fails { self.new.fails ≡ self.old.fails }
    {
        self.calls = self.calls.saturating_add(1);
        if self.fails.contains(&self.calls) {
            self.faults = self.faults.saturating_add(1);
            return Err(Failed);
        }
        let rest = self.bytes.split_at(self.at).1;
        let count = into.len().min(rest.len());
        into[..count].copy_from_slice(rest.split_at(count).0);
        self.at += count;
        Ok(count)
    }
}

/// A sink that keeps up to `room` bytes and fails at the listed calls, numbered from 1.
pub struct MemSink {
    bytes: Vec<u8>,
    room: usize,
    fails: Vec<u64>,
    calls: u64,
    faults: u64,
}

impl Drop for MemSink {
    fn drop(self) {
        let MemSink {
            bytes,
            room,
            fails,
            calls,
            faults,
        } = self;
    }
}

impl Model for MemSink {
    ghost use Rattle.std.specs.Prelude.{◌≤◌, vec_len, vec_capacity};
    ghost use Rattle.pm_io.specs.Memory.{Taking};

    ghost Value = { Taking };

    ghost view = { λ s. record {
      taken = s.bytes.items;
      room = s.room;
      fails = s.fails.items;
      calls = s.calls;
      faults = s.faults;
    } };

    ghost invariant = { λ s. (vec_len s.bytes ≤ s.room) × (s.room ≤ vec_capacity s.bytes) };
}

impl MemSink {
    /// Takes the memory for all the room at once.
    pub fn new(alloc: Global, room: usize, fails: Vec<u64>) -> Result<MemSink, AllocError>
        ensures taken { IfOk result (λ sink. sink.taken ≡ []) }
        ensures room { IfOk result (λ sink. sink.room ≡ room) }
        ensures fails { IfOk result (λ sink. sink.fails ≡ fails.items) }
        ensures calls { IfOk result (λ sink. sink.calls ≡ 0) }
        ensures faults { IfOk result (λ sink. sink.faults ≡ 0) }
    {
        Ok(MemSink {
            bytes: Vec::with_capacity(alloc, room)?,
            room,
            fails,
            calls: 0,
            faults: 0,
        })
    }

    /// The bytes that it took.
    pub fn bytes(&self) -> &[u8]
        ensures { result.now ≡ self.now.taken }
    {
        &self.bytes
    }
}

impl Sink for MemSink {
    ghost seen = { sink_view };

    ghost called = { IsCall };

    fn write(&mut self, bytes: &[u8]) -> Result<usize, Failed>
        ensures count { IfOk result (λ n. n ≤ length bytes.now) }
        ensures bytes { IfOk result (λ n. self.new.taken ≡ self.old.taken ++ take n bytes.now) }
        ensures stuck { result ≡ Ok 0 → 0 < length bytes.now → SinkFailed (sink_view self.old) (sink_view self.new) }
        ensures kept { OnErr result (self.new.taken ≡ self.old.taken) }
        ensures failed { OnErr result (SinkFailed (sink_view self.old) (sink_view self.new)) }
        ensures later { SinkLater (sink_view self.old) (sink_view self.new) }

        // It fails at the listed calls, where it has no room for any of the bytes, and at no other call.
        ensures listed { IsErr result ↔ (Contains self.old.fails (one_more self.old.calls)
            ⊎ ((0 < length bytes.now) × (length self.old.taken ≡ self.old.room))) }
        ensures told { IsCall self.old bytes.now result self.new }
        ensures room { self.new.room ≡ self.old.room }
        ensures faults { self.new.faults ≡ (if is_err result then one_more self.old.faults else self.old.faults) }
        ensures fails { self.new.fails ≡ self.old.fails }
    {
        self.calls = self.calls.saturating_add(1);
        let left = self.room - self.bytes.len();
        let is_full = left == 0 && !bytes.is_empty();
        if is_full || self.fails.contains(&self.calls) {
            self.faults = self.faults.saturating_add(1);
            return Err(Failed);
        }
        let count = bytes.len().min(left);
        match self.bytes.extend_from_slice(bytes.split_at(count).0) {
            Ok(()) => Ok(count),
            Err(_) => unreachable!(),
        }
    }
}
