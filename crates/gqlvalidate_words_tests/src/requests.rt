//! The command line: what words ask for.
use gqlvalidate_words::parse;
use std::alloc::Global;
use std::process::Abort;

/// Words, and what they ask for as its `Debug` shows it.
const READ: &[(&[&str], &str)] = &[
    (
        &["syntax", "a", "-"],
        "Syntax { files: [\"a\", \"-\"], reporting: Reporting { format: Text, color: Auto, max_reports: 100 } }",
    ),
    (&["explain"], "Explain { rule: None }"),
    (&["explain", "Syntax"], "Explain { rule: Some(\"Syntax\") }"),
    (
        &["check", "--schema", "s", "a", "--schema=t", "b"],
        "Check { choice: ConfigurationChoice { configuration: Nearest, project: None }, schema: [\"s\", \"t\"], documents: [\"a\", \"b\"], files_from: None, fragments: [], only: [], stdin_name: None, grouping: Project, limits: Limits { depth: 500, reach: 64, work: 160000000 }, reporting: Reporting { format: Text, color: Auto, max_reports: 100 }, watch: false, levels: Levels { given: [] }, max_warnings: None, dialect: Dialect { federation: false, client: None } }",
    ),
    (
        &["schema", "--format", "json", "--max-reports", "7", "s"],
        "Schema { schema: [\"s\"], reporting: Reporting { format: Json, color: Auto, max_reports: 7 }, federation: false }",
    ),
    (
        &["schema", "--format=github", "--color=never", "s"],
        "Schema { schema: [\"s\"], reporting: Reporting { format: Github, color: Never, max_reports: 18446744073709551615 }, federation: false }",
    ),
    (
        &["schema", "--format", "sarif", "s"],
        "Schema { schema: [\"s\"], reporting: Reporting { format: Sarif, color: Auto, max_reports: 18446744073709551615 }, federation: false }",
    ),
    (
        &["schema", "--format", "junit", "s"],
        "Schema { schema: [\"s\"], reporting: Reporting { format: Junit, color: Auto, max_reports: 18446744073709551615 }, federation: false }",
    ),
    (
        &["schema", "--format", "checkstyle", "s"],
        "Schema { schema: [\"s\"], reporting: Reporting { format: Checkstyle, color: Auto, max_reports: 18446744073709551615 }, federation: false }",
    ),
    (
        &["schema", "--format", "gitlab", "s"],
        "Schema { schema: [\"s\"], reporting: Reporting { format: Gitlab, color: Auto, max_reports: 18446744073709551615 }, federation: false }",
    ),
    (&["print-schema", "a"], "PrintSchema { answer: \"a\" }"),
    (
        &[
            "check",
            "--one-document",
            "--max-depth",
            "7",
            "--max-reach=5",
            "--max-work=6",
            "--color",
            "always",
            "--schema",
            "s",
            "a",
        ],
        "Check { choice: ConfigurationChoice { configuration: Nearest, project: None }, schema: [\"s\"], documents: [\"a\"], files_from: None, fragments: [], only: [], stdin_name: None, grouping: OneDocument, limits: Limits { depth: 7, reach: 5, work: 6 }, reporting: Reporting { format: Text, color: Always, max_reports: 100 }, watch: false, levels: Levels { given: [] }, max_warnings: None, dialect: Dialect { federation: false, client: None } }",
    ),
    (
        &[
            "check",
            "--files-from=l",
            "--fragments",
            "f",
            "--schema",
            "s",
            "--fragments=g",
        ],
        "Check { choice: ConfigurationChoice { configuration: Nearest, project: None }, schema: [\"s\"], documents: [], files_from: Some(PathList { file: \"l\", ends: Lines }), fragments: [\"f\", \"g\"], only: [], stdin_name: None, grouping: Project, limits: Limits { depth: 500, reach: 64, work: 160000000 }, reporting: Reporting { format: Text, color: Auto, max_reports: 100 }, watch: false, levels: Levels { given: [] }, max_warnings: None, dialect: Dialect { federation: false, client: None } }",
    ),
    (
        &["check", "--each", "--schema", "s", "a"],
        "Check { choice: ConfigurationChoice { configuration: Nearest, project: None }, schema: [\"s\"], documents: [\"a\"], files_from: None, fragments: [], only: [], stdin_name: None, grouping: Each, limits: Limits { depth: 500, reach: 64, work: 160000000 }, reporting: Reporting { format: Text, color: Auto, max_reports: 100 }, watch: false, levels: Levels { given: [] }, max_warnings: None, dialect: Dialect { federation: false, client: None } }",
    ),
    (
        &["check", "--config", "c", "--project=p"],
        "Check { choice: ConfigurationChoice { configuration: File(\"c\"), project: Some(\"p\") }, schema: [], documents: [], files_from: None, fragments: [], only: [], stdin_name: None, grouping: Project, limits: Limits { depth: 500, reach: 64, work: 160000000 }, reporting: Reporting { format: Text, color: Auto, max_reports: 100 }, watch: false, levels: Levels { given: [] }, max_warnings: None, dialect: Dialect { federation: false, client: None } }",
    ),
    (
        &["check", "--no-config", "--schema", "s", "a"],
        "Check { choice: ConfigurationChoice { configuration: Nothing, project: None }, schema: [\"s\"], documents: [\"a\"], files_from: None, fragments: [], only: [], stdin_name: None, grouping: Project, limits: Limits { depth: 500, reach: 64, work: 160000000 }, reporting: Reporting { format: Text, color: Auto, max_reports: 100 }, watch: false, levels: Levels { given: [] }, max_warnings: None, dialect: Dialect { federation: false, client: None } }",
    ),
    (
        &[
            "check",
            "--rule",
            "UnusedVariable=off",
            "--max-warnings=2",
            "--rule=UnusedFragment=error",
            "--rule",
            "UnusedFragment=warning",
            "--schema",
            "s",
            "a",
        ],
        "Check { choice: ConfigurationChoice { configuration: Nearest, project: None }, schema: [\"s\"], documents: [\"a\"], files_from: None, fragments: [], only: [], stdin_name: None, grouping: Project, limits: Limits { depth: 500, reach: 64, work: 160000000 }, reporting: Reporting { format: Text, color: Auto, max_reports: 100 }, watch: false, levels: Levels { given: [RuleLevel { rule: \"UnusedFragment\", level: Warning }, RuleLevel { rule: \"UnusedVariable\", level: Off }] }, max_warnings: Some(2), dialect: Dialect { federation: false, client: None } }",
    ),
    (
        &["serve", "--schema", "s"],
        "Serve { schema: [\"s\"], fragments: [], limits: Limits { depth: 500, reach: 4, work: 160000000 }, max_line: 8388608, max_reports: 1000, federation: false }",
    ),
    (
        &[
            "serve",
            "--max-line=9",
            "--max-reach=2",
            "--max-depth=3",
            "--max-reports=8",
            "--schema",
            "s",
        ],
        "Serve { schema: [\"s\"], fragments: [], limits: Limits { depth: 3, reach: 2, work: 160000000 }, max_line: 9, max_reports: 8, federation: false }",
    ),
    (
        &["diff", "a", "b"],
        "Diff { old: [\"a\"], new: [\"b\"], operations: [], lone_fields: false, fail_on: Breaking, format: Text, federation: false }",
    ),
    (
        &[
            "diff",
            "--old-schema",
            "c",
            "--new-schema=d",
            "--operations",
            "e",
            "--operations",
            "f",
            "--lone-fields",
            "--fail-on",
            "dangerous",
            "--format=markdown",
            "a",
            "b",
        ],
        "Diff { old: [\"a\", \"c\"], new: [\"b\", \"d\"], operations: [\"e\", \"f\"], lone_fields: true, fail_on: Dangerous, format: Markdown, federation: false }",
    ),
];

#[test]
fn requests_are_read(rt: HostRuntime) {
    for (texts, wanted) in READ {
        asks(&rt, texts, wanted);
    }
}

fn words_of(rt: &impl Abort, alloc: Global, texts: &[&str]) -> Vec<String> {
    let mut words = Vec::new(alloc);
    for text in texts {
        let word = String::from_str(alloc, text).expect(rt, "memory for a word");
        words.push(word).expect(rt, "memory for a word");
    }
    words
}

fn asks<R: AllocGlobal + Abort>(rt: &R, texts: &[&str], wanted: &str) {
    let words = words_of(rt, rt.alloc(), texts);
    match parse(rt.alloc(), &words) {
        Ok(request) => {
            let shown = format!(in rt.alloc(); "{request:?}").expect(rt, "memory for a text");
            assert_eq!(rt; shown.as_str(), wanted);
        }
        Err(_) => panic!(rt; "the words are refused"),
    }
}
