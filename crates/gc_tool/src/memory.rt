//! A source and a sink in memory, for tests: which calls fail, and how much each moves, is chosen.

ghost use Rattle.std.specs.Prelude.{◌≡◌, ◌<◌, ◌≤◌, ◌↔◌, ◌++◌, [], length, take, drop, Some, IsTrue, IsErr, IfOk, OnOk, OnErr, MatchResult, Contains};
ghost use Rattle.std.specs.Io.KnownBytes.{ReadConsumes, WriteAppends};
ghost use Rattle.gc_tool.specs.Outside.{Rose};

use crate::sink::{Sink, SinkFailed};
use crate::source::{Source, SourceFailed};
use call_steps::OutOfMemory;
use std::alloc::Global;
use std::marker::Model;

// Whether the call with this number is one of those listed.
fn is_listed(calls: &[u32], number: u64) -> bool
    ensures { IsTrue result ↔ Contains calls.now number }
{
    calls.iter().any(|call| u64::from(*call) == number)
}

/// A source that gives the bytes of a vector.
#[derive(Drop)]
pub struct MemorySource {
    bytes: Vec<u8>,
    given: usize,
    piece: usize,
    fails: Vec<u32>,
    calls: u64,
    faults: u64,
}

impl Model for MemorySource {
    ghost use Rattle.std.specs.Prelude.{◌≤◌, length, drop};
    ghost use Rattle.gc_tool.specs.Memories.{MemoryToRead};

    ghost Value = { MemoryToRead };

    ghost view = { λ a. record { left = drop a.given a.bytes.items; piece = a.piece; fails = a.fails.items; calls = a.calls; faults = a.faults } };

    ghost invariant = { λ a. (a.given ≤ length a.bytes.items) × (1 ≤ a.piece) };
}

impl MemorySource {
    /// Gives these bytes, at most `piece` in a call. `fails` are the calls, counted from 1, that fail.
    pub fn new(bytes: Vec<u8>, piece: usize, fails: Vec<u32>) -> MemorySource
        requires { 1 ≤ piece }
        ensures { result ≡ record { left = bytes.items; piece = piece; fails = fails.items; calls = 0; faults = 0 } }
    {
        MemorySource {
            bytes,
            given: 0,
            piece,
            fails,
            calls: 0,
            faults: 0,
        }
    }

    /// How many calls failed.
    pub fn faults(&self) -> u64
        ensures { result ≡ self.now.faults }
    {
        self.faults
    }
}

impl Source for MemorySource {
    ghost use Rattle.gc_tool.specs.Memories.{FailsToTake, count_to_take, after_taking, after_failing_to_take};

    ghost left = { λ source. Some source.left };

    ghost faults = { λ source. source.faults };

    fn take(&mut self, buffer: &mut [u8]) -> Result<usize, SourceFailed>
        // As at any source.
        ensures fits { IfOk result (λ count. count ≤ length buffer.new) }
        ensures bytes { ReadConsumes (Some self.old.left) (Some self.new.left) result buffer.new }
        ensures went_well { OnOk result (self.new.faults ≡ self.old.faults) }
        ensures failed { OnErr result (Rose self.old.faults self.new.faults) }

        // Exactly these calls fail, and each other one gives as much as it may.
        ensures fails { IsErr result ↔ FailsToTake self.old }
        ensures count { IfOk result (λ count. count ≡ count_to_take self.old (length buffer.old)) }
        ensures given { IfOk result (λ count. buffer.new ≡ take count self.old.left ++ drop count buffer.old) }
        ensures kept { OnErr result (buffer.new ≡ buffer.old) }
        ensures after { MatchResult result
            (λ count. self.new ≡ after_taking self.old count)
            (λ _. self.new ≡ after_failing_to_take self.old) }
    {
        self.calls = self.calls.saturating_add(1);
        if is_listed(&self.fails, self.calls) {
            self.faults = self.faults.saturating_add(1);
            return Err(SourceFailed);
        }
        let left = &self.bytes[self.given..];
        let count = self.piece.min(buffer.len()).min(left.len());
        buffer[..count].copy_from_slice(&left[..count]);
        self.given += count;
        Ok(count)
    }
}

/// A sink that keeps the bytes that it takes.
#[derive(Drop)]
pub struct MemorySink {
    held: Vec<u8>,
    room: usize,
    piece: usize,
    fails: Vec<u32>,
    calls: u64,
    faults: u64,
}

impl Model for MemorySink {
    ghost use Rattle.std.specs.Prelude.{◌≤◌, length};
    ghost use Rattle.std.specs.Vec.{vec_capacity};
    ghost use Rattle.gc_tool.specs.Memories.{MemoryToWrite};

    ghost Value = { MemoryToWrite };

    ghost view = { λ a. record { held = a.held.items; room = a.room; piece = a.piece; fails = a.fails.items; calls = a.calls; faults = a.faults } };

    ghost invariant = { λ a. (length a.held.items ≤ a.room) × (a.room ≤ vec_capacity a.held) × (1 ≤ a.piece) };
}

impl MemorySink {
    /// Keeps at most `room` bytes, for which it reserves memory now, and takes at most `piece` in a call.
    /// `fails` are the calls, counted from 1, that fail; so does one that gives bytes and finds no room.
    pub fn new(
        alloc: Global,
        room: usize,
        piece: usize,
        fails: Vec<u32>,
    ) -> Result<MemorySink, OutOfMemory>
        requires { 1 ≤ piece }
        ensures { IfOk result (λ sink. sink ≡ record { held = []; room = room; piece = piece; fails = fails.items; calls = 0; faults = 0 }) }
    {
        let held = Vec::with_capacity(alloc, room)?;
        Ok(MemorySink {
            held,
            room,
            piece,
            fails,
            calls: 0,
            faults: 0,
        })
    }

    /// The bytes that it took.
    pub fn bytes(&self) -> &[u8]
        ensures { result.now ≡ self.now.held }
    {
        &self.held
    }

    /// How many calls failed.
    pub fn faults(&self) -> u64
        ensures { result ≡ self.now.faults }
    {
        self.faults
    }
}

impl Sink for MemorySink {
    ghost use Rattle.gc_tool.specs.Memories.{FailsToGive, count_to_give, after_giving, after_failing_to_give};

    ghost holds = { λ sink. Some sink.held };

    ghost faults = { λ sink. sink.faults };

    fn give(&mut self, piece: &[u8]) -> Result<usize, SinkFailed>
        // As at any sink.
        ensures fits { IfOk result (λ count. count ≤ length piece.now) }
        ensures moves { IfOk result (λ count. 0 < length piece.now → 0 < count) }
        ensures bytes { WriteAppends (Some self.old.held) (Some self.new.held) result piece.now }
        ensures went_well { OnOk result (self.new.faults ≡ self.old.faults) }
        ensures failed { OnErr result (Rose self.old.faults self.new.faults) }

        // Exactly these calls fail, and each other one takes as much as it may.
        ensures fails { IsErr result ↔ FailsToGive self.old piece.now }
        ensures count { IfOk result (λ count. count ≡ count_to_give self.old (length piece.now)) }
        ensures after { MatchResult result
            (λ count. self.new ≡ after_giving self.old (take count piece.now))
            (λ _. self.new ≡ after_failing_to_give self.old) }
    {
        self.calls = self.calls.saturating_add(1);
        let left = self.room - self.held.len();
        if is_listed(&self.fails, self.calls) || (left == 0 && !piece.is_empty()) {
            self.faults = self.faults.saturating_add(1);
            return Err(SinkFailed);
        }
        let count = self.piece.min(left).min(piece.len());
        self.held.extend_from_slice(&piece[..count]).unwrap();
        Ok(count)
    }
}
