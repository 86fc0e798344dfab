use crate::comparisons::{have_literal, have_literals, have_no_literal};
use graphql_literals::{Plucked, SkipReason, is_program, literals_in};

#[test]
fn literals_are_found_behind_tags(rt: HostRuntime) {
    let programs = [
        ("gql`{ a }`", "{ a }"),
        ("x = graphql`{ a }`;", "{ a }"),
        ("client.gql`{ a }`", "{ a }"),
        ("gql \n\t`{ a }`", "{ a }"),
        ("gql/* of a */ // and b\n`{ a }`", "{ a }"),
        ("gql<Query, Variables>`{ a }`", "{ a }"),
        ("gql<Query<A>, { b: () => C }> `{ a }`", "{ a }"),
        ("gql(`{ a }`)", "{ a }"),
        ("graphql<A>( /* GraphQL */ `{ a }`)", "{ a }"),
        ("/* GraphQL */ `{ a }`", "{ a }"),
        ("f(/*graphql*/`{ a }`)", "{ a }"),
        ("gql``", ""),
    ];
    have_literal(&rt, rt.alloc(), &programs);
}

#[test]
fn other_template_strings_are_no_literals(rt: HostRuntime) {
    let programs = [
        "",
        "`{ a }`",
        "mygql`{ a }`",
        "gqlx`{ a }`",
        "gql_`{ a }`",
        "$gql`{ a }`",
        "égql`{ a }`",
        "GQL`{ a }`",
        "gql.of`{ a }`",
        "gql = `{ a }`",
        "gql(a, `{ b }`)",
        "gql < a || `{ b }`",
        "/* SQL */ `{ a }`",
    ];
    have_no_literal(&rt, rt.alloc(), &programs);
}

#[test]
fn comments_and_strings_hide_what_is_in_them(rt: HostRuntime) {
    have_no_literal(
        &rt,
        rt.alloc(),
        &[
            "// gql`{ a }`",
            "/* gql`{ a }` */",
            "/* gql`{ a }`",
            "x = 'gql`{ a }`'",
            "x = \"gql`{ \\\" a }`\"",
        ],
    );
    let programs = [
        ("// `\ngql`{ a }`", "{ a }"),
        ("/* ` */ gql`{ a }`", "{ a }"),
        ("x = '**/*.ts'; gql`{ a }`", "{ a }"),
        ("<p>It's a</p>\ngql`{ a }`", "{ a }"),
        ("<p>It's a</p>; gql`{ a }`", "{ a }"),
        ("x.split(/\\`/); gql`{ a }`", "{ a }"),
    ];
    have_literal(&rt, rt.alloc(), &programs);
}

#[test]
fn other_template_strings_are_skipped_as_a_whole(rt: HostRuntime) {
    let programs = [
        ("css`a: ${b({ c: `}` })}`; gql`{ a }`", "{ a }"),
        ("css`a: ${'}`'}`; gql`{ a }`", "{ a }"),
        ("css`\\` ${/* ` */ b}`; gql`{ a }`", "{ a }"),
        ("html`${gql`{ b }`}`; gql`{ a }`", "{ a }"),
    ];
    have_literal(&rt, rt.alloc(), &programs);
    have_no_literal(&rt, rt.alloc(), &["x = `b; gql`{ c }`"]);
}

#[test]
fn all_literals_of_a_program_are_found(rt: HostRuntime) {
    let programs = [
        ("gql`{ a }`; gql`{ b }`", &["{ a }", "{ b }"][..]),
        ("gql`{ a }``{ b }`", &["{ a }"]),
        ("gql`{ ${a} }`; gql`{ b }`", &["?${a}", "{ b }"]),
        ("gql`{ a }`; gql`{ b }", &["{ a }", "?`{ b }"]),
        ("<script>gql`{ a }`</script>", &["{ a }"]),
    ];
    have_literals(&rt, rt.alloc(), &programs);
}

#[test]
fn a_skipped_literal_has_its_reason(rt: HostRuntime) {
    let cases = [
        ("gql`{ ${a} }`", SkipReason::Interpolation),
        ("gql`{ a }", SkipReason::Unclosed),
    ];
    for (program, reason) in cases {
        let found = literals_in(rt.alloc(), program).expect(&rt, "memory");
        assert!(rt;
            matches!(found.first(), Some(Plucked::Skipped(it)) if it.reason == reason),
            "in {program}"
        );
    }
}

#[test]
fn programs_are_known_by_their_extensions(rt: HostRuntime) {
    let programs = [
        "a.ts",
        "a.tsx",
        "a.js",
        "a.jsx",
        "a.mjs",
        "a.cjs",
        "a.mts",
        "a.cts",
        "a/b.vue",
        "a.d.svelte",
    ];
    for path in programs {
        assert!(rt; is_program(path), "{path}");
    }
    for path in ["", "ts", "a.graphql", "a.ts.md", "a.TS", "a.tsv", "a.json"] {
        assert!(rt; !is_program(path), "{path}");
    }
}
