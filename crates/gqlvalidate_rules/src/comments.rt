//! Rules of the comments that this program reads.
use crate::explanations::Explanation;

/// The rules of comments.
pub fn comment_rules() -> &'static [Explanation] {
    &[Explanation {
        rule: "UnusedIgnore",
        section: "",
        asks: "A comment `# gqlvalidate-ignore RULE` names rules, of which something is reported on its line, or on the next line if it has a line of its own. Syntax errors and limits cannot be ignored.",
        schema: "",
        wrong: "",
        right: "",
    }]
}
