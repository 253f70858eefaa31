// The outside in memory, for tests and for callers that have their bytes at hand.
ghost use Rattle.std.specs.Prelude.{◌≡◌, ◌<◌, ◌≤◌, ◌↔◌, [], Some, length, min, take};
ghost use Rattle.swss_types.specs.Outside.{Reads, Writes};
ghost use Rattle.swss_types.specs.OutsideMemory.{Supply, Store, IsFailing, called};

use crate::{Gate, Got, Sink, Source, Took};
use std::alloc::Global;
use std::marker::Model;

/// A source of bytes in memory.
#[derive(Debug, Drop)]
pub struct MemSource {
    bytes: Vec<u8>,
    given: usize,
    piece: usize,
    fails: Vec<u64>,
    calls: u64,
    faults: u64,
}

impl Model for MemSource {
    ghost use Rattle.std.specs.Prelude.{◌≤◌, ◌<◌, drop, vec_len};
    ghost use Rattle.swss_types.specs.OutsideMemory.{Supply};

    ghost Value = { Supply };

    ghost view = { λ s. record { left = drop s.given s.bytes.items; piece = s.piece; fails = s.fails.items; calls = s.calls; faults = s.faults } };

    ghost invariant = { λ s. (s.given ≤ vec_len s.bytes) × (0 < s.piece) };
}

impl MemSource {
    /// A source that gives these bytes, as many in a call as fit. It fails at the calls with these numbers, counted
    /// from 1.
    pub fn new(bytes: Vec<u8>, fails: Vec<u64>) -> MemSource
        ensures { result ≡ record { left = bytes.items; piece = 18446744073709551615; fails = fails.items; calls = 0; faults = 0 } }
    {
        MemSource::in_pieces(bytes, fails, usize::MAX)
    }

    /// The same, which gives at most `piece` bytes in a call.
    pub fn in_pieces(bytes: Vec<u8>, fails: Vec<u64>, piece: usize) -> MemSource
        requires { 0 < piece }
        ensures { result ≡ record { left = bytes.items; piece = piece; fails = fails.items; calls = 0; faults = 0 } }
    {
        MemSource {
            bytes,
            given: 0,
            piece,
            fails,
            calls: 0,
            faults: 0,
        }
    }
}

impl Source for MemSource {
    ghost left = { λ s. Some s.left };

    ghost faults = { λ s. s.faults };

    fn read(&mut self, into: &mut [u8]) -> Got
        requires { 0 < length into.old }
        ensures gives { Reads (Some self.old.left) self.old.faults result into.new (Some self.new.left) self.new.faults }
        ensures counts { self.old.faults ≤ self.new.faults }
        ensures fails { (result ≡ Got.Failed) ↔ IsFailing self.old.fails self.old.calls }
        ensures called { self.new.calls ≡ called self.old.calls }
    {
        self.calls = self.calls.saturating_add(1);
        if self.fails.contains(&self.calls) {
            self.faults = self.faults.saturating_add(1);
            return Got::Failed;
        }
        if self.given == self.bytes.len() {
            return Got::End;
        }
        let count = copy_front(&self.bytes[self.given..], into, self.piece);
        self.given += count;
        Got::Bytes(count)
    }

    fn faults(&self) -> u64 {
        self.faults
    }
}

/// Copies bytes to the front of `into`, as many as fit and at most `most`, and answers how many.
fn copy_front(from: &[u8], into: &mut [u8], most: usize) -> usize
    ensures count { result ≡ min (min (length from.now) (length into.old)) most }
    ensures front { take result into.new ≡ take result from.now }
{
    let count = from.len().min(into.len()).min(most);
    into[..count].copy_from_slice(&from[..count]);
    count
}

/// A sink in memory, which holds what it took.
#[derive(Debug, Drop)]
pub struct MemSink {
    held: Vec<u8>,
    piece: usize,
    fails: Vec<u64>,
    calls: u64,
    faults: u64,
}

impl Model for MemSink {
    ghost use Rattle.std.specs.Prelude.{◌<◌};
    ghost use Rattle.swss_types.specs.OutsideMemory.{Store};

    ghost Value = { Store };

    ghost view = { λ s. record { held = s.held.items; piece = s.piece; fails = s.fails.items; calls = s.calls; faults = s.faults } };

    ghost invariant = { λ s. 0 < s.piece };
}

impl MemSink {
    /// A sink that holds nothing and takes each piece whole. It fails at the calls with these numbers, counted from 1.
    pub fn new(alloc: Global, fails: Vec<u64>) -> MemSink
        ensures { result ≡ record { held = []; piece = 18446744073709551615; fails = fails.items; calls = 0; faults = 0 } }
    {
        MemSink::in_pieces(alloc, fails, usize::MAX)
    }

    /// The same, which takes at most `piece` bytes in a call.
    pub fn in_pieces(alloc: Global, fails: Vec<u64>, piece: usize) -> MemSink
        requires { 0 < piece }
        ensures { result ≡ record { held = []; piece = piece; fails = fails.items; calls = 0; faults = 0 } }
    {
        MemSink {
            held: Vec::new(alloc),
            piece,
            fails,
            calls: 0,
            faults: 0,
        }
    }

    /// What the sink took.
    pub fn held(&self) -> &[u8]
        ensures { result.now ≡ self.now.held }
    {
        self.held.as_slice()
    }
}

impl Sink for MemSink {
    ghost holds = { λ s. Some s.held };

    ghost faults = { λ s. s.faults };

    fn write(&mut self, piece: &[u8]) -> Took
        requires { 0 < length piece.now }
        ensures takes { Writes (Some self.old.held) self.old.faults result piece.now (Some self.new.held) self.new.faults }
        ensures counts { self.old.faults ≤ self.new.faults }
        ensures fails { (result ≡ Took.Failed) ↔ IsFailing self.old.fails self.old.calls }
        ensures called { self.new.calls ≡ called self.old.calls }
    {
        self.calls = self.calls.saturating_add(1);
        if self.fails.contains(&self.calls) {
            self.faults = self.faults.saturating_add(1);
            return Took::Failed;
        }
        let count = piece.len().min(self.piece);
        match self.held.extend_from_slice(&piece[..count]) {
            Ok(()) => Took::Bytes(count),
            Err(_) => Took::NoMemory,
        }
    }

    fn faults(&self) -> u64 {
        self.faults
    }
}

/// The gate that holds nobody back.
#[derive(Clone, Copy, Debug, Default, PartialEq, Eq)]
pub struct Open;

impl Gate for Open {
    fn pause(&self, _actor: u32, _step: u64) {}
}
