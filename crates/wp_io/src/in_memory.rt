// Files and a sink in memory, which fail where they are told to.
ghost use Rattle.std.specs.Prelude.{◌≡◌, ◌+◌, ◌-◌, ◌^◌, ◌<◌, ◌≤◌, ◌==◌, ◌&&◌, ◌||◌, not, true, min, length, if◌then◌else◌, IsTrue, is_some, Some, None, IfSome, is_ok, is_err, IfOk, OnOk, OnErr, vec_len, vec_capacity};
ghost use Rattle.std.specs.Io.{ReadsAtMost};
ghost use Rattle.std.specs.Io.KnownBytes.{ReadConsumes, WriteAppends};
ghost use Rattle.wp_io.specs.Faults.{count_after, HasCause};
ghost use Rattle.wp_io.specs.Memory.{place_of};
ghost use Rattle.wp_io.specs.Reads.{SameNames, SameOpen};

use crate::counts::{count_call, count_fault};
use crate::pieces::{copy_piece, rest_from};
use crate::{Failed, Files, Sink};
use std::alloc::Global;
use wp_base::{List, NoMemory, Str};

// The place of the first of these names that is the same.
fn find_name(names: &List<Str>, name: &Str) -> Option<usize>
    ensures { result ≡ place_of names.now name.now }
{
    names
        .as_slice()
        .iter()
        .position(|held| held.bytes() == name.bytes())
}

/// Texts by their names, where of equal names the first counts.
#[derive(Drop)]
pub struct MemFiles {
    pub names: List<Str>,
    /// The text of each name, at the same place.
    pub texts: List<Str>,
    /// How many bytes a read gives at most.
    pub piece: usize,
    /// The numbers, from 1, of the calls that fail. Each `open` and each `read` is one call.
    pub fail: List<u64>,
    /// How many calls there were, up to the greatest `u64`.
    pub calls: u64,
    /// The place of the open text.
    pub current: Option<usize>,
    /// How many bytes of it were read since it was opened.
    pub at: usize,
    /// How many calls failed, up to the greatest `u64`.
    pub faults: u64,
    ghost gives: { 0 < piece },
}

impl MemFiles {
    ghost use Rattle.wp_io.specs.MemFiles.{AreFresh, left_of};

    /// Files of which none is open.
    pub fn new(names: List<Str>, texts: List<Str>, piece: usize, fail: List<u64>) -> MemFiles
        requires { 0 < piece }
        ensures names { result.names ≡ names }
        ensures texts { result.texts ≡ texts }
        ensures piece { result.piece ≡ piece }
        ensures fail { result.fail ≡ fail }
        ensures fresh { AreFresh result }
    {
        MemFiles {
            names,
            texts,
            piece,
            fail,
            calls: 0,
            current: None,
            at: 0,
            faults: 0,
        }
    }

    // What is left of the open text.
    fn rest(&self) -> &[u8]
        requires { IsTrue (is_some self.now.current) }
        ensures rest { left_of self.now ≡ Some result.now }
        ensures end { self.now.at + length result.now < 2 ^ 64 }
    {
        let number = self.current.unwrap();
        let text = match self.texts.get(number) {
            Some(text) => text.bytes(),
            None => &[],
        };
        rest_from(text, self.at)
    }
}

impl Files for MemFiles {
    ghost use Rattle.wp_io.specs.MemFiles.{text_of, left_of, fails_next, count_given, after_fault, after_open, after_read};

    ghost holds = { text_of };

    ghost left = { left_of };

    ghost is_open = { λ files. is_some files.current };

    ghost may_open = { λ _ _. true };

    ghost faults = { λ files. files.faults };

    fn open(&mut self, name: &Str) -> Result<(), Failed>
        // It fails at the calls that are told to fail, and at a name that it lacks.
        ensures answer { is_ok result
            ≡ (is_some (text_of self.old name.now) && not (fails_next self.old)) }
        ensures ok { OnOk result (self.new ≡ after_open self.old name.now) }
        ensures err { OnErr result (self.new ≡ after_fault self.old) }

        // What each form of files says.
        ensures opened { OnOk result (IsTrue (is_some self.new.current)) }
        ensures whole { OnOk result
            (IfSome (text_of self.old name.now) (λ text. left_of self.new ≡ Some text)) }
        ensures unopened { OnErr result
            (SameOpen (is_some self.old.current) (is_some self.new.current)
            (left_of self.old) (left_of self.new)) }
        ensures same { SameNames (λ _. true) (λ _. true) (text_of self.old) (text_of self.new) }
        ensures cause { HasCause self.old.faults self.new.faults result }
    {
        let is_failing = count_call(&mut self.calls, &self.fail);
        match find_name(&self.names, name) {
            Some(number) if number < self.texts.len() && !is_failing => {
                self.current = Some(number);
                self.at = 0;
                Ok(())
            }
            _ => Err(count_fault(&mut self.faults)),
        }
    }

    fn read(&mut self, into: &mut [u8]) -> Result<usize, Failed>
        requires is_open { IsTrue (is_some self.old.current) }
        requires room { 0 < length into.old }

        // It fails at the calls that are told to fail.
        ensures answer { is_err result ≡ fails_next self.old }
        ensures count { IfOk result (λ count. count ≡ count_given self.old (length into.new)) }
        ensures ok { IfOk result (λ count. self.new ≡ after_read self.old count) }
        ensures err { OnErr result (self.new ≡ after_fault self.old) }

        // What each form of files says.
        ensures stays_open { IsTrue (is_some self.new.current) }
        ensures bound { ReadsAtMost result into.new }
        ensures bytes { ReadConsumes (left_of self.old) (left_of self.new) result into.new }
        ensures same { SameNames (λ _. true) (λ _. true) (text_of self.old) (text_of self.new) }
        ensures cause { HasCause self.old.faults self.new.faults result }
    {
        if count_call(&mut self.calls, &self.fail) {
            return Err(count_fault(&mut self.faults));
        }
        let count = copy_piece(self.rest(), into, self.piece);
        self.at += count;
        Ok(count)
    }
}

/// A sink with room for so many bytes.
#[derive(Drop)]
pub struct MemSink {
    pub taken: Vec<u8>,
    /// How many bytes a write takes at most.
    pub piece: usize,
    /// How many bytes it takes in all.
    pub room: usize,
    /// The numbers, from 1, of the calls that fail.
    pub fail: List<u64>,
    /// How many calls there were, up to the greatest `u64`.
    pub calls: u64,
    /// How many calls failed, up to the greatest `u64`.
    pub faults: u64,
    ghost takes: { 0 < piece },
    ghost within: { vec_len taken ≤ room },
    ghost made: { room ≤ vec_capacity taken },
}

impl MemSink {
    ghost use Rattle.wp_io.specs.MemSink.{IsFresh, HasSettings};

    /// A sink that has taken nothing. Its room is made here, so that no write takes memory.
    pub fn new(
        alloc: Global,
        room: usize,
        piece: usize,
        fail: List<u64>,
    ) -> Result<MemSink, NoMemory>
        requires { 0 < piece }
        ensures settings { IfOk result (λ sink. HasSettings sink room piece fail) }
        ensures fresh { IfOk result (λ sink. IsFresh sink) }
    {
        Ok(MemSink {
            taken: Vec::with_capacity(alloc, room)?,
            piece,
            room,
            fail,
            calls: 0,
            faults: 0,
        })
    }
}

impl Sink for MemSink {
    ghost use Rattle.wp_io.specs.MemSink.{HasSettings, fails_next, room_left};

    ghost taken = { λ sink. Some sink.taken.items };

    ghost faults = { λ sink. sink.faults };

    fn write(&mut self, bytes: &[u8]) -> Result<usize, Failed>
        requires { 0 < length bytes.now }

        // It fails at the calls that are told to fail, and where no room is left.
        ensures answer { is_err result ≡ (fails_next self.old || (room_left self.old == 0)) }
        ensures count { IfOk result
            (λ count. count ≡ min self.old.piece (min (length bytes.now) (room_left self.old))) }
        ensures settings { HasSettings self.new self.old.room self.old.piece self.old.fail }
        ensures calls { self.new.calls ≡ count_after self.old.calls }
        ensures faults { self.new.faults
            ≡ (if is_ok result then self.old.faults else count_after self.old.faults) }

        // What each form of sink says.
        ensures some { IfOk result (λ count. 0 < count) }
        ensures bound { IfOk result (λ count. count ≤ length bytes.now) }
        ensures bytes { WriteAppends (Some self.old.taken.items) (Some self.new.taken.items)
            result bytes.now }
        ensures cause { HasCause self.old.faults self.new.faults result }
    {
        let is_failing = count_call(&mut self.calls, &self.fail);
        let left = self.room - self.taken.len();
        if is_failing || left == 0 {
            return Err(count_fault(&mut self.faults));
        }
        let count = self.piece.min(bytes.len()).min(left);
        self.taken.extend_from_slice(&bytes[..count]).unwrap();
        Ok(count)
    }
}
