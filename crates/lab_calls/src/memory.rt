//! A source and a sink in memory, which fail at the calls that they are told.
ghost use Rattle.std.specs.Prelude.{◌≡◌, ◌≤◌, ◌+◌, ◌^◌, ◌-◌, length, vec_len, IfOk};

use crate::streams::{Failed, Sink, Source};
use seata_types::NoMemory;
use std::alloc::Global;

/// A source of these bytes. Its calls are counted from 1.
#[derive(Drop)]
pub struct MemSource {
    bytes: Vec<u8>,
    at: usize,
    step: usize,
    failing: Vec<u32>,
    calls: u32,
    faults: u64,
    ghost within: { at ≤ vec_len bytes },
    ghost goes_on: { 1 ≤ step },
}

impl MemSource {
    ghost use Rattle.std.specs.Prelude.{◌≡◌, ◌≤◌, ◌-◌, ◌^◌, Some};
    ghost use Rattle.lab_calls.specs.MemStreams.{source_state, source_step, source_fails, source_calls};

    /// A source of these bytes that fails at these calls; takes no memory.
    pub fn new(bytes: Vec<u8>, failing: Vec<u32>) -> MemSource
        ensures state { source_state result ≡ record { left = Some bytes.items; faults = 0 } }
        ensures step { source_step result ≡ 2 ^ 64 - 1 }
        ensures fails { source_fails result ≡ failing.items }
        ensures calls { source_calls result ≡ 0 }
    {
        MemSource::with_step(bytes, usize::MAX, failing)
    }

    /// The same, where each call gives at most so many bytes.
    pub fn with_step(bytes: Vec<u8>, step: usize, failing: Vec<u32>) -> MemSource
        requires { 1 ≤ step }
        ensures state { source_state result ≡ record { left = Some bytes.items; faults = 0 } }
        ensures step { source_step result ≡ step }
        ensures fails { source_fails result ≡ failing.items }
        ensures calls { source_calls result ≡ 0 }
    {
        MemSource {
            bytes,
            at: 0,
            step,
            failing,
            calls: 0,
            faults: 0,
        }
    }
}

impl Source for MemSource {
    ghost use Rattle.std.specs.Prelude.{◌≡◌, ◌<◌, ◌≤◌, min, take, length, is_err, IfOk, OnErr};
    ghost use Rattle.disk_model.specs.Disk.{Rose};
    ghost use Rattle.std.specs.Io.KnownBytes.{Consumes, Keeps, IsAtEnd};
    ghost use Rattle.lab_calls.specs.Streams.{count_after};
    ghost use Rattle.lab_calls.specs.MemStreams.{source_state, left_of, source_step, source_fails, source_calls, next_call, fails_next};

    ghost state = { source_state };

    fn read(&mut self, into: &mut [u8]) -> Result<usize, Failed>
        ensures bound { IfOk result (λ n. n ≤ length into.old) }
        ensures bytes { IfOk result (λ n.
            Consumes (source_state self.old).left (source_state self.new).left (take n into.new)) }
        ensures end { IfOk result (λ n.
            n ≡ 0 → 0 < length into.old → IsAtEnd (source_state self.new).left) }
        ensures failed { OnErr result
            (Keeps (source_state self.old).left (source_state self.new).left) }
        ensures err { OnErr result
            (Rose (source_state self.old).faults (source_state self.new).faults) }
        ensures counted { (source_state self.old).faults ≤ (source_state self.new).faults }
        // Each error is counted, and nothing else.
        ensures count { (source_state self.new).faults
            ≡ count_after (is_err result) (source_state self.old).faults }
        // It fails at the calls that it was given, and else reads as much as it can, up to its step.
        ensures fails { is_err result ≡ fails_next (source_fails self.old) (source_calls self.old) }
        ensures most { IfOk result (λ n.
            n ≡ min (min (length into.old) (length (left_of self.old))) (source_step self.old)) }
        ensures step { source_step self.new ≡ source_step self.old }
        ensures same { source_fails self.new ≡ source_fails self.old }
        ensures calls { source_calls self.new ≡ next_call (source_calls self.old) }
    {
        self.calls = self.calls.saturating_add(1);
        if self.failing.contains(&self.calls) {
            self.faults = self.faults.saturating_add(1);
            return Err(Failed);
        }
        let count = into.len().min(self.bytes.len() - self.at).min(self.step);
        into[..count].copy_from_slice(&self.bytes[self.at..self.at + count]);
        self.at += count;
        Ok(count)
    }
}

/// A sink of so many bytes. Its calls are counted from 1.
#[derive(Drop)]
pub struct MemSink {
    bytes: Vec<u8>,
    at: usize,
    step: usize,
    failing: Vec<u32>,
    calls: u32,
    faults: u64,
    ghost within: { at ≤ vec_len bytes },
}

impl MemSink {
    ghost use Rattle.std.specs.Prelude.{◌≡◌, ◌-◌, ◌^◌, [], Some, IfOk};
    ghost use Rattle.lab_calls.specs.MemStreams.{sink_state, room_left, sink_step, sink_fails, sink_calls};

    /// A sink with this room, taken now, that fails at these calls.
    pub fn new(alloc: Global, room: usize, failing: Vec<u32>) -> Result<MemSink, NoMemory>
        ensures state { IfOk result (λ sink.
            sink_state sink ≡ record { written = Some []; faults = 0 }) }
        ensures room { IfOk result (λ sink. room_left sink ≡ room) }
        ensures step { IfOk result (λ sink. sink_step sink ≡ 2 ^ 64 - 1) }
        ensures fails { IfOk result (λ sink. sink_fails sink ≡ failing.items) }
        ensures calls { IfOk result (λ sink. sink_calls sink ≡ 0) }
    {
        MemSink::with_step(alloc, room, usize::MAX, failing)
    }

    /// The same, where each call takes at most so many bytes; with 0 it takes nothing, which is a fault at each call with
    /// some bytes.
    pub fn with_step(
        alloc: Global,
        room: usize,
        step: usize,
        failing: Vec<u32>,
    ) -> Result<MemSink, NoMemory>
        ensures state { IfOk result (λ sink.
            sink_state sink ≡ record { written = Some []; faults = 0 }) }
        ensures room { IfOk result (λ sink. room_left sink ≡ room) }
        ensures step { IfOk result (λ sink. sink_step sink ≡ step) }
        ensures fails { IfOk result (λ sink. sink_fails sink ≡ failing.items) }
        ensures calls { IfOk result (λ sink. sink_calls sink ≡ 0) }
    {
        let bytes = vec![in alloc; 0u8; room]?;
        Ok(MemSink {
            bytes,
            at: 0,
            step,
            failing,
            calls: 0,
            faults: 0,
        })
    }

    /// What was written.
    pub fn written(&self) -> &[u8]
        ensures { (sink_state self.now).written ≡ Some result.now }
    {
        &self.bytes[..self.at]
    }
}

impl Sink for MemSink {
    ghost use Rattle.std.specs.Prelude.{◌≡◌, ◌<◌, ◌≤◌, ◌+◌, min, take, length, is_err, IfOk, OnErr};
    ghost use Rattle.disk_model.specs.Disk.{Rose};
    ghost use Rattle.std.specs.Io.KnownBytes.{Appends, Keeps};
    ghost use Rattle.lab_calls.specs.Streams.{count_after, is_failed_write};
    ghost use Rattle.lab_calls.specs.MemStreams.{sink_state, room_left, sink_step, sink_fails, sink_calls, next_call, fails_next};

    ghost state = { sink_state };

    fn write(&mut self, bytes: &[u8]) -> Result<usize, Failed>
        ensures bound { IfOk result (λ n. n ≤ length bytes.now) }
        ensures bytes { IfOk result (λ n. Appends
            (sink_state self.old).written (sink_state self.new).written (take n bytes.now)) }
        ensures stuck { IfOk result (λ n. n ≡ 0 → 0 < length bytes.now
            → Rose (sink_state self.old).faults (sink_state self.new).faults) }
        ensures failed { OnErr result
            (Keeps (sink_state self.old).written (sink_state self.new).written) }
        ensures err { OnErr result
            (Rose (sink_state self.old).faults (sink_state self.new).faults) }
        ensures counted { (sink_state self.old).faults ≤ (sink_state self.new).faults }
        // Each error, and each write that takes none of some bytes, is counted, and nothing else.
        ensures count { (sink_state self.new).faults
            ≡ count_after (is_failed_write bytes.now result) (sink_state self.old).faults }
        // It fails at the calls that it was given, and else writes as much as there is room for, up to its step.
        ensures fails { is_err result ≡ fails_next (sink_fails self.old) (sink_calls self.old) }
        ensures most { IfOk result (λ n.
            n ≡ min (min (length bytes.now) (room_left self.old)) (sink_step self.old)) }
        ensures step { sink_step self.new ≡ sink_step self.old }
        ensures room { IfOk result (λ n. room_left self.new + n ≡ room_left self.old) }
        ensures kept { OnErr result (room_left self.new ≡ room_left self.old) }
        ensures same { sink_fails self.new ≡ sink_fails self.old }
        ensures calls { sink_calls self.new ≡ next_call (sink_calls self.old) }
    {
        self.calls = self.calls.saturating_add(1);
        if self.failing.contains(&self.calls) {
            self.faults = self.faults.saturating_add(1);
            return Err(Failed);
        }
        let count = bytes.len().min(self.bytes.len() - self.at).min(self.step);
        if count == 0 && !bytes.is_empty() {
            self.faults = self.faults.saturating_add(1);
        }
        self.bytes[self.at..self.at + count].copy_from_slice(&bytes[..count]);
        self.at += count;
        Ok(count)
    }
}
