//! Reads configurations and lines of schedules from files. It prints what each configuration says,
//! or why it is refused, and each line that asks something else than its case says.
#![tactic(auto)]

mod configurations;
mod lines;

use std::{env, fs, io};

fn main(rt: HostRuntime) -> io::Result<()> {
    let alloc = rt.alloc();
    let mut words = env::args(&rt)?.skip(1);
    let folder = match words.next() {
        Some(folder) => folder,
        None => String::from_str(alloc, ".")?,
    };
    for name in configurations::FILES {
        let path = format!(in alloc; "{folder}/{name}")?;
        let text = fs::read_to_string(&rt, path.as_str())?;
        let line = configurations::line_of(alloc, text.as_str())?;
        println!(rt; "{name}: {line}")?;
    }
    let path = format!(in alloc; "{folder}/{}", lines::FILE)?;
    let text = fs::read_to_string(&rt, path.as_str())?;
    let (report, count) = lines::report(alloc, text.as_str())?;
    print!(rt; "{report}")?;
    println!(rt; "{}: {count} cases", lines::FILE)?;
    Ok(())
}
