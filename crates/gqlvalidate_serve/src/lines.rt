//! Lines of standard input.

use std::io;
use std::io::{BufRead, Read};

/// What was read of a line.
#[derive(Clone, Copy)]
pub enum ReadLine {
    /// Nothing: the input has ended.
    End,
    /// All of it, with its end.
    Whole,
    /// It is longer than a line may be, and was gone past.
    TooLong,
    /// There was no memory for it, and it was gone past.
    OutOfMemory,
}

/// Reads a line in place of what was read before. It may have so many bytes, without its end.
pub fn read_line<B: BufRead>(lines: &mut B, most: u64, line: &mut Vec<u8>) -> io::Result<ReadLine> {
    line.clear();
    let room = most.saturating_add(1);
    match Read::take(lines.by_ref(), room).read_until(b'\n', line) {
        Ok(0) => Ok(ReadLine::End),
        Ok(_) => rest_of_line(lines, most, line),
        Err(error) => match error.kind() {
            io::ErrorKind::OutOfMemory => {
                lines.skip_until(b'\n')?;
                Ok(ReadLine::OutOfMemory)
            }
            _ => Err(error),
        },
    }
}

/// Goes past what is left of a line that is too long.
fn rest_of_line<B: BufRead>(lines: &mut B, most: u64, line: &[u8]) -> io::Result<ReadLine> {
    if line.last() == Some(&b'\n') || line.len() as u64 <= most {
        Ok(ReadLine::Whole)
    } else {
        lines.skip_until(b'\n')?;
        Ok(ReadLine::TooLong)
    }
}
