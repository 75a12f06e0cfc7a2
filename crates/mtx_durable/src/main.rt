//! Plays a schedule over the files of a folder: `mtx_durable FOLDER < SCHEDULE`. Shard N keeps its
//! journal in `shard-N.journal` there, router N in `router-N.journal`. A file that is there already
//! has to be as good as new. What comes of the schedule is written once all of it was played.
#![tactic(auto)]

mod files;
mod play;
mod status;

use cluster_play::Status;
use files::files_in;
use outside_core::MemSink;
use play::play_from;
use status::{number_of, words_of};
use std::alloc::{AllocError, Global};
use std::env::{Env, FillError};
use std::fs::File;
use std::io::{Read, Write};
use std::process::ExitCode;
use std::rt::Files;

/// How the program is called, as it says on standard error where its words are none of these.
const USAGE: &str = "usage: mtx_durable FOLDER < SCHEDULE";

/// The exit status where the words are no folder.
const BAD_WORDS: u8 = 2;

/// How many bytes the folder's name may have.
const LONGEST: usize = 4096;

/// The folder that the command line names: it has that one word.
fn folder_of<E: Env>(alloc: Global, env: &E) -> Result<Option<String>, AllocError> {
    let mut room = [0u8; LONGEST];
    let Ok(length) = env.arg(1, &mut room) else {
        return Ok(None);
    };
    let mut behind = [0u8; 1];
    if !matches!(env.arg(2, &mut behind), Err(FillError::NotPresent)) {
        return Ok(None);
    }
    match std::str::from_utf8(&room[..length]) {
        Ok(folder) if !folder.is_empty() => Ok(Some(String::from_str(alloc, folder)?)),
        _ => Ok(None),
    }
}

/// Plays what standard input gives over the files of the folder.
fn play_in<R: Files<File = File> + Drop + Copy, I: Read>(
    alloc: Global,
    rt: R,
    folder: &str,
    from: &mut I,
    out: &mut MemSink,
) -> Result<Status, AllocError> {
    let mut disks = files_in(alloc, rt, folder)?;
    play_from(alloc, from, out, &mut disks)
}

fn main(rt: HostRuntime) -> ExitCode {
    let alloc = rt.alloc();
    let mut out = MemSink::new(alloc, Vec::new(alloc));
    let folder = match folder_of(alloc, &rt) {
        Ok(Some(folder)) => folder,
        Ok(None) => {
            // Where standard error can't be written, the exit status tells the same.
            let _ = eprintln!(rt; "{USAGE}");
            return ExitCode::from(BAD_WORDS);
        }
        Err(AllocError) => return ExitCode::from(number_of(Status::Memory)),
    };
    let played = play_in(alloc, rt, folder.as_str(), &mut rt.stdin(), &mut out);
    let status = match rt.stdout().write_all(out.bytes()) {
        Ok(()) => played.unwrap_or(Status::Memory),
        Err(_) => Status::WriteFault,
    };
    let number = number_of(status);
    if number != 0 {
        if let Ok(words) = words_of(alloc, status) {
            let _ = eprintln!(rt; "mtx_durable: {words}");
        }
    }
    ExitCode::from(number)
}
