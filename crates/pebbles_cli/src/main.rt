//! The program `pebbles`: runs scripts over a store in a real directory.
#![tactic(auto)]

mod closing;
mod ended;
mod laws;
mod opening;
mod read_commands;
mod read_fault;
mod read_script;
mod run;
mod serve;
mod serve_client;
mod served;
#[cfg(test)]
mod tests;
mod top;
mod words;
mod write;
mod write_fault;

use crate::top::top_plain;
use disk_real::{RealDevices, RealScripts, RealSinks};
use script::Cause;
use std::io::ErrorKind;
use std::process::ExitCode;
use std::{env, io};

/// The words after the program's name.
fn command_words(rt: &HostRuntime) -> io::Result<Vec<String>> {
    Ok(env::args(rt)?.skip(1).collect(rt.alloc())?)
}

/// The cause of words that can't be read.
fn words_cause(error: io::Error) -> Cause {
    match error.kind() {
        ErrorKind::OutOfMemory => Cause::Memory,
        // A word that isn't text stands in no list of command words.
        _ => Cause::Usage,
    }
}

/// Runs the words over real devices.
fn main(rt: HostRuntime) -> ExitCode {
    let cause = match command_words(&rt) {
        Ok(words) => {
            let devices = RealDevices::new(rt);
            let mut scripts = RealScripts::new(rt);
            let mut sinks = RealSinks::new(rt);
            top_plain(rt.alloc(), &words, devices, &mut scripts, &mut sinks).cause
        }
        Err(error) => words_cause(error),
    };
    if cause != Cause::Done {
        // Where the standard error takes nothing, the status alone tells the cause.
        let _ = rt.eprintln(cause);
    }
    ExitCode::from(cause.status())
}
