// The files and the standard output of the system.
ghost use Rattle.std.specs.Prelude.{◌≡◌, ◌<◌, ◌≤◌, true, is_some, Some, None, length, IfSome};

use crate::counts::count_fault;
use crate::{Failed, Files, Sink};
use std::io::{ErrorKind, Read, Write};
use std::{fs, io, rt, str};
use wp_base::Str;

// How many times a read or a write is tried that signals interrupt.
const ATTEMPTS: u32 = 100;

/// The files of the system, by their paths. Nothing is told of what they hold.
///
/// A path that is no UTF-8 text and an opening that finds no memory are faults too. A read that a
/// signal interrupts is made again, up to a hundred times.
#[derive(Drop)]
pub struct RealFiles<R: rt::Files> {
    rt: R,
    file: Option<R::File>,
    faults: u64,
}

impl<R: rt::Files> RealFiles<R> {
    /// The files of this runtime, none of them open.
    pub fn new(rt: R) -> RealFiles<R>
        ensures { ⟦<RealFiles<R> as Files>⟧.faults result ≡ 0 }
    {
        RealFiles {
            rt,
            file: None,
            faults: 0,
        }
    }
}

fn open_file<R: rt::Files>(rt: &R, name: &Str) -> Option<R::File> {
    let path = str::from_utf8(name.bytes()).ok()?;
    fs::open(rt, path).ok()
}

fn read_some<F: Read>(file: &mut F, into: &mut [u8]) -> Option<usize>
    ensures { IfSome result (λ count. count ≤ length into.new) }
{
    for _ in 0..ATTEMPTS {
        match file.read(into) {
            Ok(count) => return Some(count),
            Err(error) if error.kind() == ErrorKind::Interrupted => {}
            Err(_) => return None,
        }
    }
    None
}

impl<R: rt::Files> Files for RealFiles<R> {
    ghost holds = { λ _ _. None };

    ghost left = { λ _. None };

    ghost is_open = { λ files. is_some files.file };

    ghost may_open = { λ _ _. true };

    ghost faults = { λ files. files.faults };

    fn open(&mut self, name: &Str) -> Result<(), Failed> {
        match open_file(&self.rt, name) {
            Some(file) => {
                self.file = Some(file);
                Ok(())
            }
            None => Err(count_fault(&mut self.faults)),
        }
    }

    fn read(&mut self, into: &mut [u8]) -> Result<usize, Failed> {
        let file = self.file.as_mut().unwrap();
        match read_some(file, into) {
            Some(count) => Ok(count),
            None => Err(count_fault(&mut self.faults)),
        }
    }
}

/// The standard output, without a buffer, so that no byte is lost at the end. Nothing is told of
/// what it took. A write that a signal interrupts is made again, up to a hundred times.
#[derive(Drop)]
pub struct RealSink<R: Print> {
    rt: R,
    faults: u64,
}

impl<R: Print> RealSink<R> {
    /// The standard output of this runtime.
    pub fn new(rt: R) -> RealSink<R>
        ensures { ⟦<RealSink<R> as Sink>⟧.faults result ≡ 0 }
    {
        RealSink { rt, faults: 0 }
    }
}

fn write_some<R: Print>(rt: &R, bytes: &[u8]) -> Option<usize>
    ensures { IfSome result (λ count. (0 < count) × (count ≤ length bytes.now)) }
{
    for _ in 0..ATTEMPTS {
        match io::writer(rt).write(bytes) {
            Ok(0) => return None,
            Ok(count) => return Some(count),
            Err(error) if error.kind() == ErrorKind::Interrupted => {}
            Err(_) => return None,
        }
    }
    None
}

impl<R: Print> Sink for RealSink<R> {
    ghost taken = { λ _. None };

    ghost faults = { λ sink. sink.faults };

    fn write(&mut self, bytes: &[u8]) -> Result<usize, Failed> {
        match write_some(&self.rt, bytes) {
            Some(count) => Ok(count),
            None => Err(count_fault(&mut self.faults)),
        }
    }
}
