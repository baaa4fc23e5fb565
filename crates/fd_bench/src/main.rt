//! What is timed under bench/, each in one process:
//!
//! `fd_bench leaves NUMBER GIGABYTES ROUNDS` makes the AMD64 image of a number (`fd_gen`), walks the leaves of so many
//! gigabytes from its kernel window's first address on ROUNDS times, and prints how many it met and what their physical
//! addresses add up to.
//!
//! `fd_bench words DIRECTORY FILE COUNT ADDRESS` opens a vmcore of a directory once, reads the eight bytes at a kernel
//! address COUNT times, and prints what the words add up to.
#![tactic(auto)]

mod failure;
mod leaves;
mod measure;
mod words;

use failure::{Failure, status};
use fd_os::DirSite;
use leaves::walked;
use measure::{Measure, read_measure};
use std::env;
use std::fs::File;
use std::process::ExitCode;
use std::rt::{Env, Files};
use words::sum_of_words;

// The measure that the program's words name.
fn named_measure<R: Env + AllocGlobal>(rt: &R) -> Result<Measure, Failure> {
    let mut words = Vec::new(rt.alloc());
    for word in env::args(rt)? {
        words.push(word)?;
    }
    Ok(read_measure(rt.alloc(), &words)?)
}

fn run<R: Env + Files<File = File> + Print + Eprint + AllocGlobal>(rt: &R) -> Result<(), Failure> {
    match named_measure(rt)? {
        Measure::Leaves {
            number,
            gigabytes,
            rounds,
        } => {
            let tally = walked(rt.alloc(), number, gigabytes, rounds)?;
            rt.println(tally)?;
        }
        Measure::Words {
            directory,
            file,
            count,
            va,
        } => {
            let mut site = DirSite::open(rt, directory.as_str(), 512)?;
            let sum = sum_of_words(rt.alloc(), &mut site, file.as_str(), count, va)?;
            rt.println(sum)?;
        }
    }
    Ok(())
}

fn main(rt: HostRuntime) -> ExitCode {
    ExitCode::from(match run(&rt) {
        Ok(()) => 0,
        Err(Failure::NoMemory) => status::MEMORY,
        Err(Failure::Fault) => status::FAULT,
        Err(Failure::NotWords) => status::USAGE,
        Err(Failure::NotRead) => status::DATA,
    })
}
