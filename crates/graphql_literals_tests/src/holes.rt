use crate::comparisons::have_literal;

#[test]
fn interpolations_between_definitions_are_blank(rt: HostRuntime) {
    let programs = [
        ("gql`{ a } ${B}`", "{ a }     "),
        ("gql`${A} { a } ${B}\n${C}`", "     { a }     \n    "),
        (
            "gql`${A}${B}, # c }\n${C} { a }`",
            "        , # c }\n     { a }",
        ),
        (
            "gql`{ a } ${f({ b: '}', c: `${d}` })} { e }`",
            "{ a }                             { e }",
        ),
        ("gql`{ a } # { \"\n${B}`", "{ a } # { \"\n    "),
        (
            "gql`{ a(b: \"{ # \\\"\") } ${B}`",
            "{ a(b: \"{ # \\\"\") }     ",
        ),
        (
            "gql`{ a(b: [\"\"\"{ \"\" \\\"\"\" { \"\"\"]) } ${B}`",
            "{ a(b: [\"\"\"{ \"\" \\\"\"\" { \"\"\"]) }     ",
        ),
        ("gql`${\n  A\r\n}{ a }`", "  \n   \r\n { a }"),
        ("gql`${é}{ a }`", "     { a }"),
    ];
    have_literal(&rt, rt.alloc(), &programs);
}

#[test]
fn literals_with_interpolations_in_definitions_are_skipped(rt: HostRuntime) {
    let programs = [
        ("gql`{ ${a} }`", "?${a}"),
        ("gql`query ${name} { a }`", "?${name}"),
        ("gql`query ($a: I = {}) ${b} { c }`", "?${b}"),
        ("gql`{ a(b: \"${c}\") }`", "?${c}"),
        ("gql`# ${c}\n{ a }`", "?${c}"),
        ("gql`{ a } \"\"\"${c}\"\"\" { a }`", "?${c}"),
        ("gql`\"\"\"}\"\"\" ${c} { a }`", "?${c}"),
        ("gql`{ a(b: \"}\") ${c} }`", "?${c}"),
        ("gql`{ a # }\n ${c} }`", "?${c}"),
        ("gql`scalar A ${c({ d: '`' })}`", "?${c({ d: '`' })}"),
    ];
    have_literal(&rt, rt.alloc(), &programs);
}

#[test]
fn backslashes_before_backticks_are_blank(rt: HostRuntime) {
    let programs = [
        ("gql`{ a(b: \"\\`\") }`", "{ a(b: \" `\") }"),
        ("gql`# \\\\\\` a\n{ b }`", "# \\\\ ` a\n{ b }"),
        ("gql`{ a(b: \"\\u00e9\\n\") }`", "{ a(b: \"\\u00e9\\n\") }"),
        ("gql`{ a(b: \"\\${c}\") }`", "{ a(b: \"\\${c}\") }"),
        ("gql`{ a(b: \"$c\") }`", "{ a(b: \"$c\") }"),
        ("gql`# a\\\n{ b } ${C}`", "# a\\\n{ b }     "),
    ];
    have_literal(&rt, rt.alloc(), &programs);
}
