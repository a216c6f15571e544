// A script, line by line.
use crate::lines::Console;
use crate::trouble::Trouble;
use scripts::text::Lines;
use std::io::Read;
use std::{env, fs};

// The script: the file that the first argument names, or standard input.
fn read_script(rt: &HostRuntime) -> anyhow::Result<Vec<u8>> {
    let mut words = env::args(rt)?;
    let _ = words.next();
    match words.next() {
        Some(path) => Ok(fs::read(rt, path.as_str())?),
        None => {
            let mut bytes = Vec::new(rt.alloc());
            rt.stdin().read_to_end(&mut bytes)?;
            Ok(bytes)
        }
    }
}

pub fn run(rt: &HostRuntime) -> anyhow::Result<()> {
    let script = read_script(rt)?;
    let mut console = Console::new(rt);
    for (i, line) in Lines::of(script.as_slice()).enumerate() {
        let number = i + 1;
        match console.obey(line) {
            Err(Trouble::Fault(fault)) => println!(rt; "line {number}: error: {fault}")?,
            done => done?,
        }
    }
    Ok(())
}
