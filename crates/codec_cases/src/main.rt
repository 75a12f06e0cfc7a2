//! Runs the cases of documents, their order, messages and streams that lie in a folder, the current
//! one where none is named, and prints each that goes another way than it says, and how many there
//! were in each file. With three words, as
//! `read 1000 FILE` or `write 1000 FILE`, it reads or writes the document of the file's digits so
//! often (bench/codecs).
#![tactic(auto)]

mod cases;
mod documents;
mod faults;
mod messages;
mod order;
mod speed;
mod streams;

use cases::Cases;
use std::{env, fs, io};

/// The files of cases.
const FILES: [&str; 4] = [
    "documents.cases",
    "order.cases",
    "messages.cases",
    "streams.cases",
];

/// Runs the files of cases of a folder.
fn run(rt: &HostRuntime, folder: &str) -> io::Result<()> {
    let alloc = rt.alloc();
    for name in FILES {
        let path = format!(in alloc; "{folder}/{name}")?;
        let text = fs::read_to_string(rt, path.as_str())?;
        let mut cases = Cases::new(alloc);
        let report = cases.run(alloc, text.as_str())?;
        print!(rt; "{report}")?;
        println!(rt; "{name}: {} cases", cases.count)?;
    }
    Ok(())
}

fn main(rt: HostRuntime) -> io::Result<()> {
    let alloc = rt.alloc();
    let mut words = env::args(&rt)?.skip(1);
    let Some(first) = words.next() else {
        return run(&rt, ".");
    };
    let (Some(times), Some(file)) = (words.next(), words.next()) else {
        return run(&rt, first.as_str());
    };
    let digits = fs::read_to_string(&rt, file.as_str())?;
    let text = speed::measured(alloc, first.as_str(), times.as_str(), digits.as_str())?;
    println!(rt; "{text}")
}
