use graphql_literals::{Literal, Plucked, Skipped, literals_in, text_of_literal};
use std::alloc::Global;
use std::process::Abort;

/// Each program has one literal, with this text.
pub(crate) fn have_literal(rt: &impl Abort, alloc: Global, programs: &[(&str, &str)]) {
    for (program, text) in programs {
        have_literals(rt, alloc, &[(*program, &[*text])]);
    }
}

/// Each program has no literal.
pub(crate) fn have_no_literal(rt: &impl Abort, alloc: Global, programs: &[&str]) {
    for program in programs {
        have_literals(rt, alloc, &[(*program, &[])]);
    }
}

/// Each program has literals with these texts. Of a literal that is skipped, the text is that of its part, after a question mark.
pub(crate) fn have_literals(rt: &impl Abort, alloc: Global, programs: &[(&str, &[&str])]) {
    for (program, texts) in programs {
        has_literals(rt, alloc, program, texts);
    }
}

fn has_literals(rt: &impl Abort, alloc: Global, program: &str, texts: &[&str]) {
    let found = literals_in(alloc, program).expect(rt, "memory");
    assert_eq!(rt; found.len(), texts.len(), "in {program}");
    for (plucked, text) in found.iter().zip(texts) {
        match plucked {
            Plucked::Literal(literal) => has_own_text(rt, alloc, program, literal, text),
            Plucked::Skipped(skipped) => is_skipped(rt, program, *skipped, text),
        }
    }
}

/// All before the literal is blank, and the literal itself has this text.
fn has_own_text(rt: &impl Abort, alloc: Global, program: &str, literal: &Literal, own: &str) {
    let text = whole_text(rt, alloc, program, literal);
    assert_eq!(rt; text.len(), literal.end, "in {program}");
    assert_eq!(rt;
        text.as_str().get(literal.start..),
        Some(own),
        "in {program}"
    );
    let before = text.as_str().get(..literal.start).unwrap_or("?");
    assert!(rt; before.trim().is_empty(), "in {program}");
}

fn is_skipped(rt: &impl Abort, program: &str, skipped: Skipped, text: &str) {
    let part = program.get(skipped.part.start..skipped.part.end);
    assert_eq!(rt; text.strip_prefix('?'), part, "in {program}");
}

/// The text of a literal of the program.
pub(crate) fn whole_text(
    rt: &impl Abort,
    alloc: Global,
    program: &str,
    literal: &Literal,
) -> String {
    text_of_literal(alloc, program, literal)
        .expect(rt, "memory")
        .expect(rt, "a literal of the program")
}
