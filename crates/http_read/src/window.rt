//! Bytes that were taken from a source and are not read yet.
ghost use Rattle.std.specs.Prelude.{◌≡◌, ◌<◌, ◌≤◌, ◌+◌, ◌-◌, length, drop, take, slice_range, [], IfOk, IfSome, OnErr};
ghost use Rattle.raven_ports.specs.Faults.{Rose};
ghost use Rattle.http_read.specs.Heads.{max_head};
ghost use Rattle.http_read.specs.Reading.{Came};

use raven_base::NoMemory;
use raven_ports::{Failed, Source};
use std::alloc::Global;
use std::marker::Model;

/// The longest head, in bytes.
pub(crate) const MAX_HEAD: usize = 16_384;

/// The bytes that were taken and are not read yet, at most as many as a head may have.
#[derive(Drop)]
pub(crate) struct Window {
    bytes: Vec<u8>,
    start: usize,
    end: usize,
}

impl Model for Window {
    ghost use Rattle.std.specs.Prelude.{◌≡◌, ◌≤◌, List, ℕ, length, slice_range};

    ghost Value = { List ℕ };

    ghost view = { λ a. slice_range a.bytes.items a.start a.end };

    ghost invariant = { λ a. (a.start ≤ a.end) × (a.end ≤ length a.bytes.items) × (length a.bytes.items ≡ 16384) };
}

// Copies the bytes from `start` to `end` to the beginning.
fn to_beginning(bytes: &mut [u8], start: usize, end: usize)
    requires ordered { start ≤ end }
    requires within { end ≤ length bytes.old }
    ensures len { length bytes.new ≡ length bytes.old }
    ensures start { take (end - start) bytes.new ≡ slice_range bytes.old start end }
{
    bytes.copy_within(start..end, 0);
}

// Moves the bytes from `start` to `end` to the beginning, and takes more after them.
fn refill<S: Source>(
    bytes: &mut [u8],
    start: usize,
    end: usize,
    source: &mut S,
) -> Result<usize, Failed>
    requires ordered { start ≤ end }
    requires within { end ≤ length bytes.old }
    requires room { end - start < length bytes.old }
    ensures len { length bytes.new ≡ length bytes.old }
    ensures most { IfOk result (λ n. end - start + n ≤ length bytes.old) }
    ensures came { IfOk result (λ n. Came n (slice_range bytes.old start end) (slice_range bytes.new 0 (end - start + n)) (S.state source.old).left (S.state source.new).left) }
    ensures end { IfOk result (λ n. IfSome (S.state source.old).left (λ left. n ≡ 0 → left ≡ [])) }
    ensures err { OnErr result (slice_range bytes.new 0 (end - start) ≡ slice_range bytes.old start end) }
    ensures err_left { OnErr result ((S.state source.new).left ≡ (S.state source.old).left) }
    ensures later { (S.state source.old).faults ≤ (S.state source.new).faults }
    ensures took { S.took source.old source.new }
    ensures cause { OnErr result (Rose ((S.state source.old).faults) ((S.state source.new).faults)) }
{
    to_beginning(bytes, start, end);
    let count = source.take(&mut bytes[end - start..])?;
    Ok(count)
}

impl Window {
    /// No bytes.
    pub(crate) fn new(alloc: Global) -> Result<Window, NoMemory>
        ensures { IfOk result (λ w. w ≡ []) }
    {
        Ok(Window {
            bytes: vec![in alloc; 0u8; MAX_HEAD]?,
            start: 0,
            end: 0,
        })
    }

    /// The bytes.
    pub(crate) fn as_slice(&self) -> &[u8]
        ensures value { result.now ≡ self.now }
        ensures within { length self.now ≤ max_head }
    {
        &self.bytes.as_slice()[self.start..self.end]
    }

    /// How many there are.
    pub(crate) fn len(&self) -> usize
        ensures value { result ≡ length self.now }
        ensures within { result ≤ max_head }
    {
        self.end - self.start
    }

    /// The first bytes, at most so many.
    pub(crate) fn prefix(&self, count: usize) -> &[u8]
        ensures { result.now ≡ take count self.now }
    {
        let bytes = self.as_slice();
        &bytes[..bytes.len().min(count)]
    }

    /// Drops the first bytes, which were read.
    pub(crate) fn skip(&mut self, count: usize)
        requires { count ≤ length self.old }
        ensures { self.new ≡ drop count self.old }
    {
        self.start += count;
    }

    /// Takes more bytes from the source, and returns how many. It is 0 exactly at the end of the source.
    pub(crate) fn fill<S: Source>(&mut self, source: &mut S) -> Result<usize, Failed>
        requires { length self.old < max_head }
        ensures came { IfOk result (λ n. Came n self.old self.new (S.state source.old).left (S.state source.new).left) }
        ensures end { IfOk result (λ n. IfSome (S.state source.old).left (λ bytes. n ≡ 0 → bytes ≡ [])) }
        ensures within { length self.new ≤ max_head }
        ensures err { OnErr result (self.new ≡ self.old) }
        ensures err_left { OnErr result ((S.state source.new).left ≡ (S.state source.old).left) }
        ensures later { (S.state source.old).faults ≤ (S.state source.new).faults }
        ensures took { S.took source.old source.new }
        ensures cause { OnErr result (Rose ((S.state source.old).faults) ((S.state source.new).faults)) }
    {
        let kept = self.end - self.start;
        let taken = refill(&mut self.bytes, self.start, self.end, source);
        self.start = 0;
        self.end = kept;
        let count = taken?;
        self.end += count;
        Ok(count)
    }
}
