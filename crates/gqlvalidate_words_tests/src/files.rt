use gqlvalidate_paths::{PathError, expand, without};
use std::alloc::Global;
use std::process::Abort;

/// Words, none of which is the path of a folder or a pattern, and the files that they name.
const WORDS: &[(&[&str], &[&str])] = &[
    (&[], &[]),
    (&["b.graphql", "a.graphql"], &["b.graphql", "a.graphql"]),
    (&["-", "a.graphql"], &["-", "a.graphql"]),
    // A file is named once: a `.` and a doubled slash change no path.
    (
        &["x/a.graphql", "./x//a.graphql", "x/./a.graphql"],
        &["x/a.graphql"],
    ),
    (
        &["/x/a.graphql", "x/a.graphql", "//x/a.graphql"],
        &["/x/a.graphql", "x/a.graphql"],
    ),
    // A word with `!` takes out a file, the files of a folder, or those that a pattern matches, of the words before it.
    (&["a.graphql", "b.graphql", "!./a.graphql"], &["b.graphql"]),
    (
        &["x/a.graphql", "x/y/b.graphql", "xy/c.graphql", "!x/"],
        &["xy/c.graphql"],
    ),
    (
        &["x/a.graphql", "x/b.gql", "x/y/c.gql", "!x/*.gql"],
        &["x/a.graphql", "x/y/c.gql"],
    ),
    (&["./x/b.gql", "c.gql", "!x/?.gql"], &["c.gql"]),
    (&["!x", "x/a.graphql"], &["x/a.graphql"]),
    // The folder in which the program runs has all paths that do not begin at the root.
    (
        &[".x/a.graphql", "b.graphql", "/c.graphql", "!."],
        &["/c.graphql"],
    ),
    (&["b.graphql", "/x/c.graphql", "!/"], &["b.graphql"]),
];

fn owned(rt: &impl Abort, alloc: Global, texts: &[&str]) -> Vec<String> {
    let mut all = Vec::new(alloc);
    for text in texts {
        all.push(String::from_str(alloc, text).expect(rt, "memory for a path"))
            .expect(rt, "memory for a path");
    }
    all
}

#[test]
fn words_name_files(rt: HostRuntime) {
    for (words, files) in WORDS {
        match expand(&rt, words) {
            Ok(expansion) => {
                let expected = owned(&rt, rt.alloc(), files);
                assert!(rt; expansion.files == expected, "{words:?}");
                assert!(rt; expansion.unread.is_empty(), "{words:?}");
            }
            Err(error) => assert!(rt; false, "{words:?}: {error:?}"),
        }
    }
}

#[test]
fn a_pattern_that_is_not_well_written_is_refused(rt: HostRuntime) {
    let is_refused = matches!(
        expand(&rt, &["a.graphql", "!x/[a"]),
        Err(PathError::BadPattern(_, _)),
    );
    assert!(rt; is_refused);
}

#[test]
fn a_pattern_that_stands_for_no_file_is_refused(rt: HostRuntime) {
    let is_refused = matches!(
        expand(&rt, &["no such folder/*.graphql"]),
        Err(PathError::NoFile(_)),
    );
    assert!(rt; is_refused);
}

#[test]
fn files_without_others_are_compared_by_their_places(rt: HostRuntime) {
    let alloc = rt.alloc();
    let files = owned(
        &rt,
        alloc,
        &["a.graphql", "./b.graphql", "x//c.graphql", "/d.graphql"],
    );
    let others = owned(&rt, alloc, &["b.graphql", "x/./c.graphql", "d.graphql"]);
    let kept = without(alloc, files, &others).expect(&rt, "memory for paths");
    let expected = owned(&rt, alloc, &["a.graphql", "/d.graphql"]);
    assert!(rt; kept == expected);
}
