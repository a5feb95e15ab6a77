// The bench program: a switch of 200 cells, records on standard input, a line for each on standard output.
#![tactic(auto)]

mod device;
mod failure;
mod input;
mod lines;
mod run;
mod switch;

use failure::tell;
use run::Run;
use std::process::ExitCode;

fn main(rt: HostRuntime) -> ExitCode {
    let mut run = Run::new();
    run.start();
    match run.play(&mut rt.stdin(), &mut rt.stdout()) {
        Ok(()) => ExitCode::SUCCESS,
        Err(failure) => {
            tell(&rt, failure);
            ExitCode::FAILURE
        }
    }
}
