//! Validates the worked examples. `gqlcheck rows` prints what is reported of each, from typed data, and `gqlcheck row ID` of
//! one. `gqlcheck texts` compares this with what their texts give. `gqlcheck refusals [ID]` judges what each validation, or
//! one, leaves; it is run while allocations fail one after another.
#![tactic(auto)]

pub mod command;
mod examples;
mod faults;
mod places;
mod refusals;
mod reports;
pub mod statuses;
mod texts;

use command::run;
use std::process::ExitCode;
use std::rt::Env;
use std::{env, io};

fn main(rt: HostRuntime) -> ExitCode {
    let status = run(
        rt.alloc(),
        given_words(&rt),
        &mut rt.stdout(),
        &mut rt.stderr(),
    );
    ExitCode::from(status.number())
}

/// The words after the program's name.
fn given_words(rt: &(impl Env + AllocGlobal)) -> io::Result<Vec<String>> {
    let mut words = Vec::new(rt.alloc());
    for word in env::args(rt)?.skip(1) {
        words.push(word)?;
    }
    Ok(words)
}
