ghost use Rattle.std.specs.Prelude.{◌≡◌, ◌≤◌, None, IfOk, IfSome, length};
ghost use Rattle.outside_core.specs.Bytes.{ReadsBytes};

use outside_core::{Sink, SinkErr, Source, SourceErr};
use std::io::{ErrorKind, Read, Write};

/// How many bytes one call asks of a reader.
const ROOM: usize = 65_536;

/// A reader of std as a source. It doesn't tell its bytes.
#[derive(Drop)]
pub struct ReaderSource<R: Read + Drop> {
    inner: R,
    faults: u64,
}

impl<R: Read + Drop> ReaderSource<R> {
    pub fn new(inner: R) -> ReaderSource<R>
        ensures { result.faults ≡ 0 }
    {
        ReaderSource { inner, faults: 0 }
    }
}

/// Reads once into `room`, and tells how many bytes came; nothing where the reader failed. A read
/// that a signal interrupts is tried again.
fn read_through<R: Read>(inner: &mut R, room: &mut [u8]) -> Option<usize>
    ensures room { length room.new ≡ length room.old }
    ensures bound { IfSome result (λ n. n ≤ length room.old) }
{
    for _ in 0..u64::MAX {
        match inner.read(room) {
            Ok(count) => return Some(count),
            Err(error) => {
                if error.kind() != ErrorKind::Interrupted {
                    return None;
                }
            }
        }
    }
    None
}

/// Reads once into `room`, and appends what came.
fn pull<R: Read>(inner: &mut R, room: &mut [u8], out: &mut Vec<u8>) -> Result<usize, SourceErr>
    ensures moved { ReadsBytes (length room.old) None None out.old.items out.new.items result }
    ensures bound { IfOk result (λ n. n ≤ length room.old) }
{
    let Some(count) = read_through(inner, room) else {
        return Err(SourceErr::Failed);
    };
    let front = &room[..count];
    match out.extend_from_slice(front) {
        Ok(()) => Ok(front.len()),
        Err(_) => Err(SourceErr::Memory),
    }
}

impl<R: Read + Drop> Source for ReaderSource<R> {
    ghost left = { λ _. None };

    ghost fault_count = { λ s. s.faults };

    fn read(&mut self, max: usize, out: &mut Vec<u8>) -> Result<usize, SourceErr> {
        let mut room = [0u8; ROOM];
        let most = max.min(ROOM);
        let piece = &mut room[..most];
        match pull(&mut self.inner, piece, out) {
            Ok(count) => Ok(count),
            Err(SourceErr::Memory) => Err(SourceErr::Memory),
            Err(SourceErr::Failed) => {
                self.faults = self.faults.saturating_add(1);
                Err(SourceErr::Failed)
            }
        }
    }

    fn faults(&self) -> u64 {
        self.faults
    }
}

/// A writer of std as a sink. It doesn't tell what it holds.
#[derive(Drop)]
pub struct WriterSink<W: Write + Drop> {
    inner: W,
    faults: u64,
}

impl<W: Write + Drop> WriterSink<W> {
    pub fn new(inner: W) -> WriterSink<W>
        ensures { result.faults ≡ 0 }
    {
        WriterSink { inner, faults: 0 }
    }
}

impl<W: Write + Drop> Sink for WriterSink<W> {
    ghost held = { λ _. None };

    ghost fault_count = { λ s. s.faults };

    fn write(&mut self, bytes: &[u8]) -> Result<usize, SinkErr> {
        match self.inner.write_all(bytes) {
            Ok(()) => Ok(bytes.len()),
            Err(_) => {
                self.faults = self.faults.saturating_add(1);
                Err(SinkErr::Failed)
            }
        }
    }

    fn faults(&self) -> u64 {
        self.faults
    }
}
