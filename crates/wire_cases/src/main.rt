//! Runs the cases of messages between nodes that lie in a folder, the current one where none is
//! named, and prints each that goes another way than it says, and how many there were in each file.
#![tactic(auto)]

mod cases;
mod frames;

use cases::Cases;
use std::{env, fs, io};

/// The files of cases.
const FILES: [&str; 3] = ["messages.cases", "refusals.cases", "cuts.cases"];

fn main(rt: HostRuntime) -> io::Result<()> {
    let alloc = rt.alloc();
    let mut words = env::args(&rt)?.skip(1);
    let folder = match words.next() {
        Some(folder) => folder,
        None => String::from_str(alloc, ".")?,
    };
    for name in FILES {
        let path = format!(in alloc; "{folder}/{name}")?;
        let text = fs::read_to_string(&rt, path.as_str())?;
        let mut cases = Cases::new();
        let report = cases.run(alloc, text.as_str())?;
        print!(rt; "{report}")?;
        println!(rt; "{name}: {} cases", cases.count)?;
    }
    Ok(())
}
