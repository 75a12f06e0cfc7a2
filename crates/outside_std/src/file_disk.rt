ghost use Rattle.std.specs.Prelude.{◌≡◌, ◌≤◌, [], Bool, false, length, IfOk, Ok, Err, MatchResult};
ghost use Rattle.std.proofs.lemmas.Bool.{false≢true};
ghost use Rattle.outcomes.specs.Causes.{FailsOnly, Rose};

use outside_core::{Disk, DiskErr};
use std::fs::{File, OpenOptions};
use std::io;
use std::os::unix::fs::FileExt;
use std::rt::Files;

/// A file of the system, opened at its first call, and made where there is none. It tells nothing
/// of its bytes.
#[derive(Drop)]
pub struct FileDisk<R: Files<File = File> + Drop> {
    rt: R,
    path: String,
    file: Option<File>,
    faults: u64,
}

impl<R: Files<File = File> + Drop> FileDisk<R> {
    /// The file of this path.
    pub fn at(rt: R, path: String) -> FileDisk<R>
        ensures { result.faults ≡ 0 }
    {
        FileDisk {
            rt,
            path,
            file: None,
            faults: 0,
        }
    }

    // Counts a fault.
    fn fail(&mut self) -> DiskErr
        ensures later { self.old.faults ≤ self.new.faults }
        ensures rose { Rose self.old.faults self.new.faults }
    {
        self.faults = self.faults.saturating_add(1);
        DiskErr::Failed
    }

    // Hands on what the system gave, and counts a failure.
    fn counted<T: Drop>(&mut self, given: io::Result<T>) -> Result<T, DiskErr>
        ensures value { MatchResult given (λ x. result ≡ Ok x) (λ _. result ≡ Err DiskErr.Failed) }
        ensures faults { FailsOnly DiskErr.Failed self.old.faults self.new.faults result }
    {
        match given {
            Ok(x) => Ok(x),
            Err(_) => Err(self.fail()),
        }
    }
}

// The file, opened where it isn't yet.
fn opened<'a, R: Files<File = File>>(
    rt: &R,
    path: &str,
    slot: &'a mut Option<File>,
) -> io::Result<&'a File> {
    if slot.is_none() {
        let file = OpenOptions::new()
            .read(true)
            .write(true)
            .create(true)
            .open(rt, path)?;
        *slot = Some(file);
    }
    match slot {
        Some(file) => Ok(file),
        None => unreachable!(),
    }
}

fn length_of(file: &File) -> io::Result<u64> {
    Ok(file.metadata()?.len())
}

// Reads as far as the file's length, and answers how many bytes these are. A file that has become
// shorter meanwhile is a failure.
fn read_whole(file: &File, at: u64, out: &mut [u8]) -> io::Result<usize>
    ensures { IfOk result (λ n. n ≤ length out.old) }
{
    let behind = length_of(file)?.saturating_sub(at);
    let count = usize::try_from(behind).unwrap_or(usize::MAX).min(out.len());
    file.read_exact_at(&mut out[..count], at)?;
    Ok(count)
}

impl<R: Files<File = File> + Drop> Disk for FileDisk<R> {
    ghost tells = { λ _. false };

    ghost seen = { λ _. [] };

    ghost may_leave = { λ _ _. ⊥ };

    ghost moment = { λ _. 0 };

    ghost left_since = { λ _ _ _. ⊥ };

    ghost fault_count = { λ d. d.faults };

    ghost shown = { λ d tells. absurd (false≢true tells) };

    ghost counts_now = { λ d t c tells le now. now };

    ghost only_now = { λ d c tells left. left };

    fn len(&mut self) -> Result<u64, DiskErr> {
        let given = opened(&self.rt, self.path.as_str(), &mut self.file).and_then(length_of);
        self.counted(given)
    }

    fn read_at(&mut self, at: u64, out: &mut [u8]) -> Result<usize, DiskErr> {
        let given = match opened(&self.rt, self.path.as_str(), &mut self.file) {
            Ok(file) => read_whole(file, at, out),
            Err(e) => Err(e),
        };
        self.counted(given)
    }

    fn write_at(&mut self, at: u64, bytes: &[u8]) -> Result<(), DiskErr> {
        if at.checked_add(bytes.len() as u64).is_none() {
            return Err(self.fail());
        }
        let given = match opened(&self.rt, self.path.as_str(), &mut self.file) {
            Ok(file) => file.write_all_at(bytes, at),
            Err(e) => Err(e),
        };
        self.counted(given)
    }

    fn cut(&mut self, len: u64) -> Result<(), DiskErr> {
        let given = match opened(&self.rt, self.path.as_str(), &mut self.file) {
            Ok(file) => file.set_len(len),
            Err(e) => Err(e),
        };
        self.counted(given)
    }

    fn sync(&mut self) -> Result<(), DiskErr> {
        let given = match opened(&self.rt, self.path.as_str(), &mut self.file) {
            Ok(file) => file.sync_all(),
            Err(e) => Err(e),
        };
        self.counted(given)
    }

    fn faults(&self) -> u64 {
        self.faults
    }
}
