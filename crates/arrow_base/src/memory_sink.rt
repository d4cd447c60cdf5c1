//! Sinks in memory, which fail where they are told to.
ghost use Rattle.std.specs.Prelude.{◌≡◌, ◌<◌, ◌≤◌, ◌+◌, ◌-◌, ◌==◌, ◌||◌, [], Some, min, take, length, vec_len, vec_capacity, is_err, IfOk, OnErr};
ghost use Rattle.std.specs.Int.{IsInRange};
ghost use Rattle.std.specs.Io.KnownBytes.{Appends, Keeps};
ghost use Rattle.arrow_core.specs.Errors.{OnlyOutOfMemory};
ghost use Rattle.arrow_base.specs.Outside.{RoseOrFull, is_among, one_more, counted};

use crate::calls::Calls;
use crate::faults::{Failed, Faults};
use crate::sink::Sink;
use arrow_core::{Items, Result};
use std::alloc::Global;

/// A sink in memory of a fixed capacity, which takes bytes in pieces and fails at the writes that
/// it was told to fail at, and once it is full.
#[derive(Drop)]
pub struct MemorySink {
    bytes: Vec<u8>,
    capacity: usize,
    piece: usize,
    calls: Calls,
    faults: Faults,
    ghost reserved: { capacity ≤ vec_capacity bytes },
    ghost within: { vec_len bytes ≤ capacity },
    ghost some: { 1 ≤ piece },
}

impl MemorySink {
    ghost use Rattle.arrow_base.specs.MemorySink.{held_of, capacity_of, piece_of, failing_of, writes_of, faults_of};

    /// A sink that takes `capacity` bytes in all, for which memory is reserved at once. A write
    /// takes at most `piece` bytes, which is at least 1, and the writes whose numbers, counted
    /// from 1, are in `failing` fail. `OutOfMemory` where the memory can't be reserved.
    pub fn with_room(
        alloc: Global,
        capacity: usize,
        piece: usize,
        failing: Items<u64>,
    ) -> Result<MemorySink>
        requires { 1 ≤ piece }
        ensures held { IfOk result (λ s. held_of s ≡ []) }
        ensures capacity { IfOk result (λ s. capacity_of s ≡ capacity) }
        ensures piece { IfOk result (λ s. piece_of s ≡ piece) }
        ensures failing { IfOk result (λ s. failing_of s ≡ failing) }
        ensures no_write_yet { IfOk result (λ s. writes_of s ≡ 0) }
        ensures no_fault_yet { IfOk result (λ s. faults_of s ≡ 0) }
        ensures memory { OnlyOutOfMemory result }
    {
        let bytes = Vec::with_capacity(alloc, capacity)?;
        Ok(MemorySink {
            bytes,
            capacity,
            piece,
            calls: Calls::new(failing),
            faults: Faults::new(),
        })
    }

    /// The bytes that it took so far, in order.
    pub fn held(&self) -> &[u8]
        ensures { result.now ≡ held_of self.now }
    {
        self.bytes.as_slice()
    }

    /// How many writes failed so far. The count stops at the greatest `u64`.
    pub fn faults(&self) -> u64
        ensures { result ≡ faults_of self.now }
    {
        self.faults.count()
    }
}

impl Sink for MemorySink {
    ghost use Rattle.arrow_base.specs.MemorySink.{held_of, capacity_of, piece_of, failing_of, writes_of, faults_of};

    ghost held = { λ s. Some (held_of s) };

    ghost faults = { faults_of };

    fn write(&mut self, bytes: &[u8]) -> std::result::Result<usize, Failed>
        requires { 0 < length bytes.now }
        ensures count { IfOk result (IsInRange 1 (length bytes.now)) }
        ensures taken { IfOk result
            (λ n. Appends (Some (held_of self.old)) (Some (held_of self.new)) (take n bytes.now)) }
        ensures unchanged { OnErr result
            (Keeps (Some (held_of self.old)) (Some (held_of self.new))) }
        ensures never_falls { faults_of self.old ≤ faults_of self.new }
        ensures cause { OnErr result (RoseOrFull (faults_of self.old) (faults_of self.new)) }

        // What a write takes, and which writes fail, is known to the last byte.
        ensures as_much { IfOk result
            (λ n. n ≡ min (length bytes.now)
            (min (piece_of self.old) (capacity_of self.old - length (held_of self.old)))) }
        ensures fails { is_err result
            ≡ (is_among (failing_of self.old) (writes_of self.old + 1)
            || (length (held_of self.old) == capacity_of self.old)) }
        ensures numbered { writes_of self.new ≡ one_more (writes_of self.old) }
        ensures counted { faults_of self.new ≡ counted (is_err result) (faults_of self.old) }
        ensures same_capacity { capacity_of self.new ≡ capacity_of self.old }
        ensures same_piece { piece_of self.new ≡ piece_of self.old }
        ensures same_failing { failing_of self.new ≡ failing_of self.old }
    {
        let is_to_fail = self.calls.is_next_to_fail();
        let free = self.capacity - self.bytes.len();
        if is_to_fail || free == 0 {
            return Err(self.faults.fail());
        }
        let n = bytes.len().min(self.piece).min(free);
        // The memory was reserved, so that this takes none.
        match self.bytes.extend_from_slice(&bytes[..n]) {
            Ok(()) => Ok(n),
            Err(_) => unreachable!(),
        }
    }

    ghost bounded = { λ s. s.faults.fits };
}
