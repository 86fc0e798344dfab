use crate::faults::{Fault, fault_of_words};
use crate::refusals::{judge_all, judge_named};
use crate::reports::report_example;
use crate::statuses::Status;
use crate::texts::compare_all;
use graphql_examples::{Example, find, tables};
use std::alloc::Global;
use std::io;
use std::io::Write;

/// Runs the program on these words, without its own name. The status says how it ended; what is
/// wrong, if anything, is said to `faults`.
pub fn run<O: Write, F: Write>(
    alloc: Global,
    words: io::Result<Vec<String>>,
    output: &mut O,
    faults: &mut F,
) -> Status {
    let ended = match words {
        Ok(words) => answer(alloc, &words, output),
        Err(error) => Err(fault_of_words(error)),
    };
    match ended {
        Ok(status) => status,
        Err(fault) => {
            fault.explain(faults);
            fault.status()
        }
    }
}

fn answer<O: Write>(alloc: Global, words: &[String], output: &mut O) -> Result<Status, Fault> {
    let status = match words {
        [word, id] => answer_named(alloc, word.as_str(), id.as_str(), output)?,
        [word] => answer_all(alloc, word.as_str(), output)?,
        _ => return Err(Fault::BadArguments),
    };
    output.flush()?;
    Ok(status)
}

/// Answers a word with the name of an example.
fn answer_named<O: Write>(
    alloc: Global,
    word: &str,
    id: &str,
    output: &mut O,
) -> Result<Status, Fault> {
    match word {
        "row" => answer_row(alloc, id, output),
        "refusals" => judge_named(alloc, id).and(Ok(Status::Accepted)),
        _ => Err(Fault::BadArguments),
    }
}

fn answer_row<O: Write>(alloc: Global, id: &str, output: &mut O) -> Result<Status, Fault> {
    let example = find(id).ok_or(Fault::BadArguments)?;
    if report_example(alloc, example, output)? {
        Ok(Status::Reported)
    } else {
        Ok(Status::Accepted)
    }
}

/// Answers a word that asks for all examples.
fn answer_all<O: Write>(alloc: Global, word: &str, output: &mut O) -> Result<Status, Fault> {
    match word {
        "rows" => answer_rows(alloc, output)?,
        "texts" => compare_all(alloc, output)?,
        "refusals" => judge_all(alloc, output)?,
        _ => return Err(Fault::BadArguments),
    }
    Ok(Status::Accepted)
}

fn answer_rows<O: Write>(alloc: Global, output: &mut O) -> Result<(), Fault> {
    for examples in tables() {
        report_examples(alloc, examples, output)?;
    }
    Ok(())
}

fn report_examples<O: Write>(
    alloc: Global,
    examples: &[Example],
    output: &mut O,
) -> Result<(), Fault> {
    for example in examples {
        writeln!(output, "row {}", example.id)?;
        report_example(alloc, example, output)?;
    }
    Ok(())
}
