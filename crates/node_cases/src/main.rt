//! Runs the cases of shards' nodes that lie in a folder, and prints each that goes another way than
//! it says, and how many there were in each file.
#![tactic(auto)]

mod cases;
mod node;
mod standing;
mod stops;
mod unread;

use cases::Cases;
use standing::Standing;
use std::{env, fs, io};

/// The files of cases.
const FILES: [&str; 7] = [
    "transactions.cases",
    "participants.cases",
    "decisions.cases",
    "starts.cases",
    "faults.cases",
    "stops.cases",
    "drawn.cases",
];

fn main(rt: HostRuntime) -> io::Result<()> {
    let alloc = rt.alloc();
    let mut words = env::args(&rt)?.skip(1);
    let folder = match words.next() {
        Some(folder) => folder,
        None => String::from_str(alloc, ".")?,
    };
    for name in FILES {
        let path = format!(in alloc; "{folder}/{name}")?;
        let text = fs::read_to_string(&rt, path.as_str())?;
        let lines: Vec<&str> = text.lines().collect(alloc)?;
        let mut cases = Cases::of(alloc, lines.as_slice());
        Standing::new(alloc).run(alloc, &mut cases)?;
        let Cases { said, count, .. } = cases;
        print!(rt; "{said}")?;
        println!(rt; "{name}: {count} cases")?;
    }
    Ok(())
}
