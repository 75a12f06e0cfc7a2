//! Runs the cases of a router that lie in a folder, and prints each that goes another way than it
//! says: what a router sends and replies at each event.
#![tactic(auto)]

mod cases;
mod standing;
mod unread;

use cases::Cases;
use standing::Standing;
use std::{env, fs, io};

/// The files of cases.
const FILES: [&str; 10] = [
    "runs.cases",
    "messages.cases",
    "refused.cases",
    "plain.cases",
    "statements.cases",
    "commits.cases",
    "tokens.cases",
    "ends.cases",
    "times.cases",
    "walks.cases",
];

fn main(rt: HostRuntime) -> io::Result<()> {
    let alloc = rt.alloc();
    let mut words = env::args(&rt)?.skip(1);
    let folder = match words.next() {
        Some(folder) => folder,
        None => String::from_str(alloc, ".")?,
    };
    for name in FILES {
        let path = format!(in alloc; "{folder}/{name}")?;
        let text = fs::read_to_string(&rt, path.as_str())?;
        let lines: Vec<&str> = text.lines().collect(alloc)?;
        let mut cases = Cases::of(alloc, lines.as_slice());
        Standing::new(alloc)?.run(alloc, &mut cases)?;
        let Cases { said, count, .. } = cases;
        print!(rt; "{said}")?;
        println!(rt; "{name}: {count} cases")?;
    }
    Ok(())
}
