//! Runs the cases of a shard's part that lie in a folder, those that no node comes to in a short
//! run, and prints each that goes another way than it says.
#![tactic(auto)]

mod cases;
mod numbers;
mod standing;

use cases::Cases;
use std::{env, fs, io};

/// The files of cases.
const FILES: [&str; 2] = ["limits.cases", "volume.cases"];

fn main(rt: HostRuntime) -> io::Result<()> {
    let alloc = rt.alloc();
    let mut words = env::args(&rt)?.skip(1);
    let folder = match words.next() {
        Some(folder) => folder,
        None => String::from_str(alloc, ".")?,
    };
    for name in FILES {
        let path = format!(in alloc; "{folder}/{name}")?;
        let text = fs::read_to_string(&rt, path.as_str())?;
        let mut cases = Cases::new(alloc);
        let report = cases.run(alloc, text.as_str())?;
        print!(rt; "{report}")?;
        println!(rt; "{name}: {} cases", cases.count)?;
    }
    Ok(())
}
