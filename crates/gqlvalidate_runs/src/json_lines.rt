//! Lines of JSON.

use gqlvalidate_inputs::faults::{Fault, fault_of_output};
use gqlvalidate_inputs::printable::PrintableJson;
use json::Writer;
use std::alloc::Global;
use std::io::Write;

/// Prints the JSON as a line, in one write.
pub fn print_line<O: Write>(alloc: Global, json: Writer, output: &mut O) -> Result<(), Fault> {
    let bytes = json.into_inner();
    let Ok(text) = std::str::from_utf8(&bytes) else {
        return Err(Fault::OutputFailed);
    };
    let mut line = PrintableJson(text).to_string(alloc)?;
    line.push('\n')?;
    output.write_all(line.as_bytes()).map_err(fault_of_output)
}
