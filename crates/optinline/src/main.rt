//! `optinline`: LLVM IR text to a RV32IM executable of the least text size.
#![tactic(auto)]

mod answer;
mod command;
mod faults;
mod object;
mod reply;
mod status;
#[cfg(test)]
mod tests;
mod unbuilt;
mod words;

use command::tool;
use oi_world::FileDesk;
use status::NO_WORDS;
use std::process::ExitCode;
use std::rt::Env;
use std::{env, io};

/// The words after the program's name.
fn given_words<R: Env + AllocGlobal>(rt: &R) -> io::Result<Vec<String>> {
    let mut words = Vec::new(rt.alloc());
    for word in env::args(rt)?.skip(1) {
        words.push(word)?;
    }
    Ok(words)
}

fn main(rt: HostRuntime) -> ExitCode {
    let alloc = rt.alloc();
    let Ok(words) = given_words(&rt) else {
        return ExitCode::from(NO_WORDS);
    };
    let mut desk = FileDesk::new(&rt, alloc);
    ExitCode::from(tool(alloc, words.as_slice(), &mut desk))
}
