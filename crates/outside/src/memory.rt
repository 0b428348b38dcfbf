ghost use Rattle.std.specs.Prelude.{◌≡◌, ◌+◌, ◌-◌, ◌<◌, ◌≤◌, ◌↔◌, List, [], ◌++◌, ℕ, length, take, drop, min, Contains, IsErr, IsOk, IsTrue, IfOk, MatchResult, Some, vec_len, vec_capacity};
ghost use Rattle.std.specs.Io.{ReadsAtMost};
ghost use Rattle.std.specs.Io.KnownBytes.{ReadConsumes};
ghost use Rattle.outside.specs.Causes.{HasCause};
ghost use Rattle.outside.specs.Written.{WritesPiece};
ghost use Rattle.outside.specs.Calls.{SourceState, SinkState, counted, limit_at, taken, Succeeds};

use crate::{Failed, Sink, Source};
use std::alloc::Global;
use std::marker::Model;

/// Memory ran out.
#[derive(Clone, Copy, Debug, PartialEq, Eq)]
pub struct NoMemory;

/// A source over bytes, which gives them in pieces and fails at the numbered calls.
#[derive(Drop)]
pub struct MemSource {
    bytes: Vec<u8>,
    at: usize,
    piece: usize,
    fails: Vec<u64>,
    calls: u64,
    faults: u64,
}

impl Model for MemSource {
    ghost Value = { SourceState };

    ghost view = { λ s. record {
      left = drop s.at s.bytes.items;
      piece = s.piece;
      fails = s.fails.items;
      calls = s.calls;
      faults = s.faults;
    } };

    ghost invariant = { λ s. (s.at ≤ length s.bytes.items) × (1 ≤ s.piece) };
}

impl MemSource {
    /// Gives `bytes`, at most `piece` in a call, which is at least 1, and fails exactly at the calls
    /// in `fails`, counted from 1.
    pub fn new(bytes: Vec<u8>, piece: usize, fails: Vec<u64>) -> MemSource
        requires { 1 ≤ piece }
        ensures { result ≡ record { left = bytes.items; piece = piece; fails = fails.items; calls = 0; faults = 0 } }
    {
        MemSource {
            bytes,
            at: 0,
            piece,
            fails,
            calls: 0,
            faults: 0,
        }
    }
}

// Whether the call after so many is in the list. A number past the type's end is in none.
fn is_listed(fails: &[u64], calls: u64) -> bool
    ensures { IsTrue result ↔ Contains fails.now (calls + 1) }
{
    match calls.checked_add(1) {
        Some(number) => fails.contains(&number),
        None => false,
    }
}

// The bytes from a place on at the front of the buffer, and how many.
fn give(bytes: &[u8], at: usize, buf: &mut [u8], piece: usize) -> usize
    requires place { at ≤ length bytes.now }
    requires piece { 1 ≤ piece }
    ensures count { result ≡ min (length (drop at bytes.now)) (min (length buf.old) piece) }
    ensures within { at + result ≤ length bytes.now }
    ensures room { result ≤ length buf.new }
    ensures given { take result buf.new ≡ take result (drop at bytes.now) }
    ensures rest { drop at bytes.now ≡ take result buf.new ++ drop (at + result) bytes.now }
    ensures end { result ≡ 0 → 0 < length buf.new → drop (at + result) bytes.now ≡ [] }
{
    let rest = &bytes[at..];
    let count = rest.len().min(buf.len().min(piece));
    buf[..count].copy_from_slice(&rest[..count]);
    count
}

impl Source for MemSource {
    ghost left = { λ s. Some s.left };

    ghost faults = { λ s. s.faults };

    fn read(&mut self, buf: &mut [u8]) -> Result<usize, Failed>
        ensures bound { ReadsAtMost result buf.new }
        ensures bytes { ReadConsumes (Some self.old.left) (Some self.new.left) result buf.new }
        ensures cause { HasCause self.old.faults self.new.faults result }
        ensures count { MatchResult result (λ _. self.new.faults ≡ self.old.faults) (λ _. self.new.faults ≡ counted self.old.faults) }
        ensures fails { IsErr result ↔ Contains self.old.fails (self.old.calls + 1) }
        ensures gives { IfOk result (λ n. n ≡ min (length self.old.left) (min (length buf.old) self.old.piece)) }
        ensures calls { self.new.calls ≡ counted self.old.calls }
        ensures rest { (self.new.piece ≡ self.old.piece) × (self.new.fails ≡ self.old.fails) }
    {
        let fails = is_listed(&self.fails, self.calls);
        self.calls = self.calls.saturating_add(1);
        if fails {
            self.faults = self.faults.saturating_add(1);
            return Err(Failed);
        }
        let count = give(&self.bytes, self.at, buf, self.piece);
        self.at += count;
        Ok(count)
    }
}

/// A sink over memory, of a capacity, which fails at the numbered calls.
#[derive(Drop)]
pub struct MemSink {
    held: Vec<u8>,
    capacity: usize,
    fails: Vec<(u64, usize)>,
    calls: u64,
    faults: u64,
}

impl Model for MemSink {
    ghost Value = { SinkState };

    ghost view = { λ s. record {
      held = s.held.items;
      capacity = s.capacity;
      fails = s.fails.items;
      calls = s.calls;
      faults = s.faults;
    } };

    ghost invariant = { λ s. (vec_len s.held ≤ s.capacity) × (s.capacity ≤ vec_capacity s.held) };
}

impl MemSink {
    /// Holds nothing, has room for `capacity` bytes, and fails at the calls in `fails`, counted from
    /// 1, after so many bytes. Of several entries for one call the first counts.
    pub fn new(
        alloc: Global,
        capacity: usize,
        fails: Vec<(u64, usize)>,
    ) -> Result<MemSink, NoMemory>
        ensures { IfOk result (λ s. s ≡ record { held = []; capacity = capacity; fails = fails.items; calls = 0; faults = 0 }) }
    {
        match Vec::with_capacity(alloc, capacity) {
            Ok(held) => Ok(MemSink {
                held,
                capacity,
                fails,
                calls: 0,
                faults: 0,
            }),
            Err(_) => Err(NoMemory),
        }
    }

    /// The bytes held.
    pub fn bytes(&self) -> &[u8]
        ensures { result.now ≡ self.now.held }
    {
        self.held.as_slice()
    }
}

// How many bytes the call after so many may take, by the first entry of its number.
fn limit_of(fails: &[(u64, usize)], calls: u64) -> Option<usize>
    ensures { result ≡ limit_at fails.now (calls + 1) }
{
    for entry in fails {
        if entry.0 > calls && entry.0 - calls == 1 {
            return Some(entry.1);
        }
    }
    None
}

// Appends to a vector that has the room.
fn append(held: &mut Vec<u8>, piece: &[u8])
    requires { vec_len held.old + length piece.now ≤ vec_capacity held.old }
    ensures items { held.new.items ≡ held.old.items ++ piece.now }
    ensures len { vec_len held.new ≡ vec_len held.old + length piece.now }
    ensures capacity { vec_capacity held.old ≤ vec_capacity held.new }
{
    held.extend_from_slice(piece).unwrap();
}

// How many bytes of a piece are taken.
fn count_of(limit: Option<usize>, len: usize, room: usize) -> usize
    ensures value { result ≡ taken limit len room }
    ensures len { result ≤ len }
    ensures room { result ≤ room }
{
    match limit {
        None => len.min(room),
        Some(most) => most.min(len.min(room)),
    }
}

impl Sink for MemSink {
    ghost held = { λ s. Some s.held };

    ghost faults = { λ s. s.faults };

    fn write(&mut self, piece: &[u8]) -> Result<(), Failed>
        ensures bytes { WritesPiece (Some self.old.held) (Some self.new.held) result piece.now }
        ensures cause { HasCause self.old.faults self.new.faults result }
        ensures count { MatchResult result (λ _. self.new.faults ≡ self.old.faults) (λ _. self.new.faults ≡ counted self.old.faults) }
        ensures succeeds { IsOk result ↔ Succeeds (limit_at self.old.fails (self.old.calls + 1)) (length piece.now) (self.old.capacity - length self.old.held) }
        ensures takes { self.new.held ≡ self.old.held ++ take (taken (limit_at self.old.fails (self.old.calls + 1)) (length piece.now) (self.old.capacity - length self.old.held)) piece.now }
        ensures calls { self.new.calls ≡ counted self.old.calls }
        ensures rest { (self.new.capacity ≡ self.old.capacity) × (self.new.fails ≡ self.old.fails) }
    {
        let limit = limit_of(&self.fails, self.calls);
        let room = self.capacity - self.held.len();
        let count = count_of(limit, piece.len(), room);
        self.calls = self.calls.saturating_add(1);
        append(&mut self.held, &piece[..count]);
        if limit.is_none() && piece.len() <= room {
            return Ok(());
        }
        self.faults = self.faults.saturating_add(1);
        Err(Failed)
    }
}
