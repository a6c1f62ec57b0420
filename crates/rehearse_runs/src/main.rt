// Runs what rehearse does on each input of data/. The inputs were made by another implementation of the register, and
// stdout is what that one prints for them.
#![tactic(auto)]

use std::fs::File;
use std::io;
use std::io::Read;
use std::rt::Files;

// The inputs are 00000.run to 00039.run.
const RUNS: u8 = 40;

fn main(rt: HostRuntime) -> io::Result<()> {
    for number in 0..RUNS {
        let name = format!(in rt.alloc(); "{number:05}.run")?;
        run(&rt, name.as_str())?;
    }
    Ok(())
}

// Writes what rehearse prints for the input in a file. Of a file that is too long one byte more is read than an input may have,
// which says so: a file may have no end. Where the file can't be opened, a line on standard error says why.
fn run(rt: &(impl Files + Print + Eprint), name: &str) -> io::Result<()> {
    match File::open(rt, name) {
        Ok(file) => {
            // `as` keeps the number: std has no From of a usize for a u64.
            let mut input = file.take(rehearsal::INPUT_MAX as u64 + 1);
            rehearsal::rehearse_from(&mut input, &mut io::writer(rt))
        }
        Err(error) => eprintln!(rt; "{name}: {error}"),
    }
}
