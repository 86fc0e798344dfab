use crate::errors::ExampleError;
use std::alloc::Global;
use std::fmt::Write;

/// A text that is written once for each number.
#[derive(Clone, Copy)]
struct Repetition<'a> {
    first: u16,
    last: u16,
    text: &'a str,
}

/// The text with each repetition `<first-last: text>` written out.
pub fn written_out(alloc: Global, text: &str) -> Result<String, ExampleError> {
    let mut whole = String::new(alloc);
    push_pieces(&mut whole, text).and(Ok(whole))
}

fn push_pieces(whole: &mut String, text: &str) -> Result<(), ExampleError> {
    let mut is_repeated = false;
    for piece in text.split(['<', '>']) {
        if is_repeated {
            push_repeated(whole, piece)?;
        } else {
            whole.push_str(piece)?;
        }
        is_repeated = !is_repeated;
    }
    Ok(())
}

fn push_repeated(whole: &mut String, written: &str) -> Result<(), ExampleError> {
    let repetition = read_repetition(written).ok_or(ExampleError::NotARepetition)?;
    for number in repetition.first..=repetition.last {
        push_numbered(whole, repetition.text, number)?;
    }
    Ok(())
}

/// Reads `first-last: text`.
fn read_repetition(written: &str) -> Option<Repetition<'_>> {
    let (range, text) = written.split_once(':')?;
    let (first, last) = range.split_once('-')?;
    Some(Repetition {
        first: first.parse().ok()?,
        last: last.parse().ok()?,
        text,
    })
}

/// Writes the text with this number for each `%`, and the next one for each `%+`.
fn push_numbered(whole: &mut String, text: &str, number: u16) -> Result<(), ExampleError> {
    let number = u32::from(number);
    let mut pieces = text.split('%');
    whole.push_str(pieces.next().unwrap_or(""))?;
    for piece in pieces {
        let (number, after) = match piece.strip_prefix('+') {
            Some(after) => (number + 1, after),
            None => (number, piece),
        };
        write!(whole, "{number}{after}").or(Err(ExampleError::OutOfMemory))?;
    }
    Ok(())
}
