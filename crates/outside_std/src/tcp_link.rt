ghost use Rattle.std.specs.Prelude.{◌≡◌, ◌≤◌, ◌<◌, None, length, IfErr};
ghost use Rattle.outcomes.specs.Causes.{Rose};
ghost use Rattle.outside_core.specs.Bytes.{ReadsBytes};

use outside_core::{Link, LinkErr};
use std::io::{Read, Write};
use std::net::{Shutdown, TcpStream};

/// No call of `receive` takes more bytes.
const PIECE: usize = 4096;

/// A TCP connection. It tells nothing of its bytes. Once it is shut, the peer's `receive` meets the
/// end.
#[derive(Drop)]
pub struct TcpLink {
    stream: TcpStream,
    faults: u64,
    ends: u64,
}

impl TcpLink {
    /// The link of a connection. Short messages are sent at once, where the system allows it.
    pub(crate) fn of(stream: TcpStream) -> TcpLink
        ensures { (result.faults ≡ 0) × (result.ends ≡ 0) }
    {
        let _ = stream.set_nodelay(true);
        TcpLink {
            stream,
            faults: 0,
            ends: 0,
        }
    }

    // Counts a fault.
    fn fail(&mut self) -> LinkErr
        ensures error { result ≡ LinkErr.Failed }
        ensures later { self.old.faults ≤ self.new.faults }
        ensures rose { Rose self.old.faults self.new.faults }
        ensures ends { self.new.ends ≡ self.old.ends }
    {
        self.faults = self.faults.saturating_add(1);
        LinkErr::Failed
    }

    // Counts the end, where a call that asked for bytes got none.
    fn note_end(&mut self, max: usize, count: usize)
        ensures later { self.old.ends ≤ self.new.ends }
        ensures ended { count ≡ 0 → 0 < max → Rose self.old.ends self.new.ends }
        ensures faults { self.new.faults ≡ self.old.faults }
    {
        if count == 0 && max > 0 {
            self.ends = self.ends.saturating_add(1);
        }
    }
}

// Appends a piece, and answers its length.
fn append(max: usize, out: &mut Vec<u8>, piece: &[u8]) -> Result<usize, LinkErr>
    requires { length piece.now ≤ max }
    ensures bytes { ReadsBytes max None None out.old.items out.new.items result }
    ensures refused { IfErr result (λ e. e ≡ LinkErr.Memory) }
{
    match out.extend_from_slice(piece) {
        Ok(()) => Ok(piece.len()),
        Err(_) => Err(LinkErr::Memory),
    }
}

impl Link for TcpLink {
    ghost left = { λ _. None };

    ghost held = { λ _. None };

    ghost fault_count = { λ l. l.faults };

    ghost end_count = { λ l. l.ends };

    fn receive(&mut self, max: usize, out: &mut Vec<u8>) -> Result<usize, LinkErr> {
        let mut piece = [0u8; PIECE];
        let most = max.min(PIECE);
        // Before any byte is taken, so that none is lost.
        if out.reserve(most).is_err() {
            return Err(LinkErr::Memory);
        }
        let Ok(count) = self.stream.read(&mut piece[..most]) else {
            return Err(self.fail());
        };
        let count = append(max, out, &piece[..count])?;
        self.note_end(max, count);
        Ok(count)
    }

    fn send(&mut self, bytes: &[u8]) -> Result<usize, LinkErr> {
        match self.stream.write(bytes) {
            Ok(0) if !bytes.is_empty() => Err(self.fail()),
            Ok(count) => Ok(count),
            Err(_) => Err(self.fail()),
        }
    }

    fn faults(&self) -> u64 {
        self.faults
    }

    fn ends(&self) -> u64 {
        self.ends
    }

    fn shut(&mut self) {
        let _ = self.stream.shutdown(Shutdown::Both);
    }
}
