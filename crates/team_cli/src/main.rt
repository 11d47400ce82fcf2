//! The program: `main` hands the words of the command line and the real objects to `run` of `team_run`, and ends with the status.
#![tactic(auto)]

use lockboxes::SymbolicKeeper;
use outcomes::NO_MEMORY;
use std::io::ErrorKind;
use std::process::ExitCode;
use std::{env, io};
use team_run::run;
use tg_outside::{Input, Output, RealClock, RealEntropy, RealFiles, Silent, Steps};

// The words after the program's name. Where one isn't UTF-8 there are none, which is no command.
fn words_given(rt: &HostRuntime) -> Result<Vec<String>, ExitCode> {
    let mut words = Vec::new(rt.alloc());
    match env::args(rt) {
        Ok(args) => {
            for word in args.skip(1) {
                if words.push(word).is_err() {
                    return Err(ExitCode::from(NO_MEMORY));
                }
            }
            Ok(words)
        }
        Err(error) if error.kind() == ErrorKind::OutOfMemory => Err(ExitCode::from(NO_MEMORY)),
        Err(_) => Ok(words),
    }
}

fn main(rt: HostRuntime) -> ExitCode {
    let words = match words_given(&rt) {
        Ok(words) => words,
        Err(status) => return status,
    };
    let mut files = RealFiles::new(&rt);
    let mut entropy = RealEntropy::new(&rt);
    let mut clock = RealClock::new(&rt);
    let mut input = Input::new(rt.reader());
    let mut out = Output::new(io::writer(&rt));
    let mut steps = Steps::new(Silent);
    ExitCode::from(run(
        rt.alloc(),
        &words,
        &mut files,
        &mut entropy,
        &mut clock,
        &mut input,
        &mut out,
        &SymbolicKeeper,
        &mut steps,
    ))
}
