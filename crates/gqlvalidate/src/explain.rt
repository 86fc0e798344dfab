//! What a rule asks, as text.

use gqlvalidate_inputs::faults::{Fault, fault_of_output};
use gqlvalidate_inputs::printable::Printable;
use gqlvalidate_inputs::statuses::Status;
use gqlvalidate_rules::{Explanation, explanation_of, tables};
use std::io;
use std::io::Write;

/// Writes what the rule of this name asks. If no rule has the name, `faults` says so.
pub fn explain<O: Write, F: Write>(
    rule: &str,
    output: &mut O,
    faults: &mut F,
) -> Result<Status, Fault> {
    match explanation_of(rule) {
        Some(explanation) => {
            write_explanation(explanation, output).map_err(fault_of_output)?;
            Ok(Status::Accepted)
        }
        None => {
            let _ = writeln!(
                faults,
                "error: no rule has the name `{}`; `gqlvalidate explain` lists all rules",
                Printable(rule)
            );
            Ok(Status::BadArguments)
        }
    }
}

/// Writes the name of each rule, and its section.
pub fn list_rules<O: Write>(output: &mut O) -> Result<Status, Fault> {
    for explanations in tables() {
        list(explanations, output).map_err(fault_of_output)?;
    }
    Ok(Status::Accepted)
}

fn list<O: Write>(explanations: &[Explanation], output: &mut O) -> io::Result<()> {
    for explanation in explanations {
        let rule = explanation.rule;
        let section = explanation.section;
        if section.is_empty() {
            writeln!(output, "{rule}")?;
        } else {
            writeln!(output, "{rule} ({section})")?;
        }
    }
    Ok(())
}

fn write_explanation<O: Write>(explanation: &Explanation, output: &mut O) -> io::Result<()> {
    let rule = explanation.rule;
    if explanation.section.is_empty() {
        writeln!(output, "{rule}")?;
    } else {
        writeln!(output, "{rule}: {}", explanation.section)?;
    }
    writeln!(output, "\n{}", explanation.asks)?;
    write_example("Wrong", explanation.wrong, output)?;
    write_example("Right", explanation.right, output)?;
    write_example("The schema of both", explanation.schema, output)
}

/// Writes an example below its title, if there is one.
fn write_example<O: Write>(title: &str, example: &str, output: &mut O) -> io::Result<()> {
    if example.is_empty() {
        return Ok(());
    }
    writeln!(output, "\n{title}:\n")?;
    for line in example.lines() {
        writeln!(output, "    {line}")?;
    }
    Ok(())
}
