//! Runs the cases that lie in a folder, and prints each that goes another way than it says: what
//! messages ask, what they are refused with, and how replies read.
#![tactic(auto)]

mod cases;
mod large;
mod replies;
mod told;

use cases::Cases;
use std::{env, fs, io};

/// The files of cases.
const FILES: [&str; 5] = [
    "reading.cases",
    "refused.cases",
    "first.cases",
    "replies.cases",
    "limits.cases",
];

fn main(rt: HostRuntime) -> io::Result<()> {
    let alloc = rt.alloc();
    let mut words = env::args(&rt)?.skip(1);
    let folder = match words.next() {
        Some(folder) => folder,
        None => String::from_str(alloc, ".")?,
    };
    for name in FILES {
        let path = format!(in alloc; "{folder}/{name}")?;
        let text = fs::read_to_string(&rt, path.as_str())?;
        let mut cases = Cases::new(alloc);
        let report = cases.run(alloc, text.as_str())?;
        print!(rt; "{report}")?;
        println!(rt; "{name}: {} cases", cases.count)?;
    }
    Ok(())
}
