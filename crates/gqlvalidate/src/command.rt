use crate::configured::check_configured;
use crate::explain::{explain, list_rules};
use crate::schemas::check_schema;
use crate::watch::repeat;
use gqlvalidate_check::bounds::{bounds_of, bounds_of_answers};
use gqlvalidate_check::policies::Policy;
use gqlvalidate_check::presentations::Presentation;
use gqlvalidate_check::{KeptRuns, Words, check_syntax};
use gqlvalidate_diff::{Compared, compare, presentation_of};
use gqlvalidate_inputs::faults::{Fault, fault_of_output, fault_of_words};
use gqlvalidate_inputs::introspections::print_schema;
use gqlvalidate_inputs::printable::printable_words;
use gqlvalidate_inputs::statuses::Status;
use gqlvalidate_inputs::terminals::Terminal;
use gqlvalidate_serve::{Allowance, serve};
use gqlvalidate_words::{Dialect, Refusal, Request, parse};
use std::alloc::Global;
use std::io;
use std::io::{Read, Write};
use std::rt::Files;
use std::time::Clock;

/// Runs the program on these words, without its own name. The status says how it ended; what is
/// wrong, if anything, is said to `faults`.
pub fn run<R: Files + AllocGlobal + Clock + Clone + Drop, I: Read, O: Write, F: Write>(
    rt: &R,
    words: io::Result<Vec<String>>,
    terminal: Terminal,
    input: &mut I,
    output: &mut O,
    faults: &mut F,
) -> Status {
    let ended = match words {
        Ok(words) => run_words(rt, &words, terminal, input, output, faults),
        Err(error) => Err(fault_of_words(error)),
    };
    match ended {
        Ok(status) => status,
        Err(fault) => {
            fault.explain(faults);
            fault.status()
        }
    }
}

fn run_words<R: Files + AllocGlobal + Clock + Clone + Drop, I: Read, O: Write, F: Write>(
    rt: &R,
    words: &[String],
    terminal: Terminal,
    input: &mut I,
    output: &mut O,
    faults: &mut F,
) -> Result<Status, Fault> {
    let status = match parse(rt.alloc(), words) {
        Ok(request) => answer(rt, &request, terminal, input, output, faults)?,
        Err(refusal) => refuse_words(rt.alloc(), words, &refusal, output, faults)?,
    };
    output.flush().map_err(fault_of_output)?;
    Ok(status)
}

/// Does what is asked for.
fn answer<R: Files + AllocGlobal + Clock + Clone + Drop, I: Read, O: Write, F: Write>(
    rt: &R,
    request: &Request<'_>,
    terminal: Terminal,
    input: &mut I,
    output: &mut O,
    faults: &mut F,
) -> Result<Status, Fault> {
    match request {
        Request::Check {
            choice,
            schema,
            documents,
            files_from,
            fragments,
            only,
            stdin_name,
            grouping,
            limits,
            reporting,
            watch,
            levels,
            max_warnings,
            dialect,
        } => {
            let words = Words {
                schema,
                documents,
                files_from: *files_from,
                fragments,
                only,
                stdin_name: *stdin_name,
                grouping: *grouping,
                bounds: bounds_of(*limits),
                policy: Policy {
                    levels,
                    max_warnings: *max_warnings,
                },
                dialect: *dialect,
            };
            let presentation = Presentation::new(*reporting, terminal);
            if *watch {
                return repeat(rt, words, *choice, presentation, input, output, faults);
            }
            let mut kept = KeptRuns::new(rt.alloc(), false);
            check_configured(
                rt,
                words,
                *choice,
                presentation,
                &mut kept,
                input,
                output,
                faults,
            )
        }
        Request::Diff {
            old,
            new,
            operations,
            lone_fields,
            fail_on,
            format,
            federation,
        } => {
            let compared = Compared {
                old,
                new,
                operations,
                lone_fields: *lone_fields,
                fail_on: *fail_on,
                format: *format,
                presentation: presentation_of(*format, terminal),
                dialect: of_schema(*federation),
            };
            compare(rt, compared, input, output, faults)
        }
        Request::PrintSchema { answer } => print_schema(rt, answer, input, output, faults),
        Request::Schema {
            schema,
            reporting,
            federation,
        } => {
            let presentation = Presentation::new(*reporting, terminal);
            let dialect = of_schema(*federation);
            check_schema(rt, schema, dialect, presentation, input, output, faults)
        }
        Request::Serve {
            schema,
            fragments,
            limits,
            max_line,
            max_reports,
            federation,
        } => {
            let allowance = Allowance {
                bounds: bounds_of_answers(*limits, *max_reports),
                line: *max_line,
                reports: *max_reports,
                lends: !fragments.is_empty(),
                dialect: of_schema(*federation),
            };
            serve(rt, schema, fragments, allowance, input, output, faults)
        }
        Request::Syntax { files, reporting } => {
            let presentation = Presentation::new(*reporting, terminal);
            check_syntax(rt, files, presentation, input, output, faults)
        }
        Request::Explain { rule: Some(rule) } => explain(rule, output, faults),
        Request::Explain { rule: None } => list_rules(output),
    }
}

/// The dialect of a schema that is perhaps a subgraph.
fn of_schema(federation: bool) -> Dialect {
    Dialect {
        federation,
        client: None,
    }
}

/// Says why these words ask for no run. What it quotes of them is printable.
fn refuse_words<O: Write, F: Write>(
    alloc: Global,
    words: &[String],
    refusal: &Refusal,
    output: &mut O,
    faults: &mut F,
) -> Result<Status, Fault> {
    if matches!(refusal, Refusal::OutOfMemory) {
        return Err(Fault::OutOfMemory);
    }
    let printed = printable_words(alloc, words)?;
    match parse(alloc, &printed) {
        Ok(_) => {
            let _ = writeln!(faults, "error: an argument has a control character");
            Ok(Status::BadArguments)
        }
        Err(refusal) => refuse(&refusal, output, faults),
    }
}

/// Says why no run is asked for: help and the version are no faults.
fn refuse<O: Write, F: Write>(
    refusal: &Refusal,
    output: &mut O,
    faults: &mut F,
) -> Result<Status, Fault> {
    match refusal {
        Refusal::OutOfMemory => Err(Fault::OutOfMemory),
        Refusal::Asked(text) => {
            output.write_all(text.as_bytes()).map_err(fault_of_output)?;
            Ok(Status::Accepted)
        }
        Refusal::Wrong(text) => {
            let _ = faults.write_all(text.as_bytes());
            Ok(Status::BadArguments)
        }
    }
}
