// The program rehearse: reads the sizes of a room and step records, and writes what each step answers and what each
// server's catalogue counts.
#![tactic(auto)]

use std::io;
use std::process::ExitCode;

// Where the text cannot be written, a line on standard error says why, and the status is 1.
fn main(rt: HostRuntime) -> ExitCode {
    match rehearsal::rehearse_from(&mut rt.stdin(), &mut io::writer(&rt)) {
        Ok(()) => ExitCode::SUCCESS,
        Err(error) => {
            let _ = eprintln!(rt; "rehearse: standard output: {error}");
            ExitCode::FAILURE
        }
    }
}
