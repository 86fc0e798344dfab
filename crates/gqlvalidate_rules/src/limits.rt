//! Syntax, and limits.
use crate::explanations::Explanation;

/// Syntax, and the reports of limits.
pub fn limits() -> &'static [Explanation] {
    &[
        Explanation {
            rule: "Syntax",
            section: "2 Language",
            asks: "A text follows the grammar of GraphQL.",
            schema: "",
            wrong: "",
            right: "",
        },
        Explanation {
            rule: "NestsTooDeep",
            section: "",
            asks: "A document nests at most as deep as the bounds allow, in brackets and braces and through its fragments. It is not validated further, and no rule need be broken.",
            schema: "",
            wrong: "",
            right: "",
        },
        Explanation {
            rule: "ReachesTooMuch",
            section: "",
            asks: "Operations expand to at most as many bytes of fragments as the bounds allow. The document is not validated further, and no rule need be broken.",
            schema: "",
            wrong: "",
            right: "",
        },
        Explanation {
            rule: "TakesTooMuch",
            section: "",
            asks: "Comparing the fields that come together takes at most as much work as the bounds allow. The document is not validated further, and no rule need be broken.",
            schema: "",
            wrong: "",
            right: "",
        },
        Explanation {
            rule: "MoreReports",
            section: "",
            asks: "There are more reports than are kept.",
            schema: "",
            wrong: "",
            right: "",
        },
        Explanation {
            rule: "DeeplyNestedType",
            section: "",
            asks: "A search for cycles follows a path of at most 100 fragments, or of 32 input objects or directives. A longer path is reported, and no rule need be broken.",
            schema: "",
            wrong: "",
            right: "",
        },
        Explanation {
            rule: "RecursionError",
            section: "",
            asks: "A walk enters at most 500 nested selection sets. A deeper document is reported, and no rule need be broken.",
            schema: "",
            wrong: "",
            right: "",
        },
        Explanation {
            rule: "RecursionLimit",
            section: "",
            asks: "A search follows at most 500 nested selection sets, and merging 128. A deeper document is reported, and no rule need be broken.",
            schema: "",
            wrong: "",
            right: "",
        },
    ]
}
