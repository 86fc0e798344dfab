//! Validates GraphQL schemas and documents from files, and prints what is wrong with them.
#![tactic(auto)]

mod command;
mod configured;
mod explain;
mod schemas;
mod snapshots;
mod watch;

use command::run;
use gqlvalidate_inputs::terminals::Terminal;
use std::env::VarError;
use std::io::IsTerminal;
use std::process::ExitCode;
use std::rt::Env;
use std::{env, io};

fn main(rt: HostRuntime) -> ExitCode {
    let status = run(
        &rt,
        given_words(&rt),
        Terminal {
            colored: has_colors(&rt, &rt.stdout()),
            columns: columns(&rt),
        },
        &mut rt.stdin(),
        &mut rt.stdout(),
        &mut rt.stderr(),
    );
    ExitCode::from(status.number())
}

/// The words after the program's name.
fn given_words(rt: &(impl Env + AllocGlobal)) -> io::Result<Vec<String>> {
    let mut words = Vec::new(rt.alloc());
    for word in env::args(rt)?.skip(1) {
        words.push(word)?;
    }
    Ok(words)
}

/// Whether text is coloured if the command line leaves it open: as `FORCE_COLOR` says, if the environment has it; else at a terminal that
/// is not `dumb`, unless the environment has `NO_COLOR`.
fn has_colors(rt: &(impl Env + AllocGlobal), output: &impl IsTerminal) -> bool {
    match env::var(rt, "FORCE_COLOR") {
        Ok(value) if !value.is_empty() => value.as_str() != "0" && value.as_str() != "false",
        _ => output.is_terminal() && !has_no_color(rt) && !is_dumb(rt),
    }
}

/// Whether the environment has `NO_COLOR`, with any value but an empty one.
fn has_no_color(rt: &(impl Env + AllocGlobal)) -> bool {
    match env::var(rt, "NO_COLOR") {
        Ok(value) => !value.is_empty(),
        Err(VarError::NotPresent) => false,
        Err(_) => true,
    }
}

/// Whether the terminal has no colours.
fn is_dumb(rt: &(impl Env + AllocGlobal)) -> bool {
    match env::var(rt, "TERM") {
        Ok(value) => value.as_str() == "dumb",
        Err(_) => false,
    }
}

/// How many columns lines have: as the environment says in `COLUMNS`, if it does.
fn columns(rt: &(impl Env + AllocGlobal)) -> usize {
    match env::var(rt, "COLUMNS") {
        Ok(value) => value.parse::<usize>().unwrap_or(Terminal::COLUMNS),
        Err(_) => Terminal::COLUMNS,
    }
}
