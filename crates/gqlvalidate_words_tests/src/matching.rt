use gqlvalidate_patterns::Pattern;
use std::alloc::Global;
use std::process::Abort;

/// The paths of the tests.
const PATHS: &[&str] = &[
    "a.graphql",
    "b.gql",
    "c.ts",
    "src/a.graphql",
    "src/b.gql",
    "src/x/c.graphql",
    "src/x/y/d.graphql",
    "src/x/y/e.gql",
    "src/[id]/f.graphql",
    "src/é.graphql",
    "src/schema/s.graphql",
    "schema/t.graphql",
    "schema/u1.graphql",
    "schema/u2.graphql",
    "schema/uz.graphql",
];

/// Patterns, and the numbers of the paths for which bash, with `globstar`, has them stand.
const MATCHES: &[(&str, &[usize])] = &[
    ("*.graphql", &[0]),
    ("*.{graphql,gql}", &[0, 1]),
    ("src/*", &[3, 4, 9]),
    ("src/*.graphql", &[3, 9]),
    ("src/**/*.graphql", &[3, 5, 6, 8, 9, 10]),
    ("**/*.gql", &[1, 4, 7]),
    ("**/x/**/*.graphql", &[5, 6]),
    ("src/?.graphql", &[3, 9]),
    ("src/?.gql", &[4]),
    ("schema/u[0-9].graphql", &[12, 13]),
    ("schema/u[!0-9].graphql", &[14]),
    ("{src,schema}/*.graphql", &[3, 9, 11, 12, 13, 14]),
    ("src/x/{c,y/d}.graphql", &[5, 6]),
    ("src/\\[id\\]/*.graphql", &[8]),
    ("src/[id]/*.graphql", &[]),
    ("**/y/*", &[6, 7]),
    ("src/x/**", &[5, 6, 7]),
];

fn pattern(rt: &impl Abort, alloc: Global, text: &str) -> Pattern {
    Pattern::parse(alloc, text).expect(rt, "a pattern")
}

#[test]
fn patterns_stand_for_the_paths_of_a_shell(rt: HostRuntime) {
    for (text, numbers) in MATCHES {
        let pattern = pattern(&rt, rt.alloc(), text);
        for (number, path) in PATHS.iter().enumerate() {
            let matches = pattern.matches(rt.alloc(), path).expect(&rt, "memory");
            assert_eq!(rt; matches, numbers.contains(&number), "{text} and {path}");
        }
    }
}

#[test]
fn the_last_pattern_decides(rt: HostRuntime) {
    let texts = ["src/**/*.graphql", "!src/x/**", "src/x/y/*.graphql"];
    let mut patterns = Vec::new(rt.alloc());
    for text in &texts {
        patterns
            .push(pattern(&rt, rt.alloc(), text))
            .expect(&rt, "memory");
    }
    for (number, path) in PATHS.iter().enumerate() {
        let selects = gqlvalidate_patterns::selects(rt.alloc(), &patterns, path).expect(
            &rt, "memory",
        );
        assert_eq!(rt; selects, [3, 6, 8, 9, 10].contains(&number), "{path}");
    }
}

#[test]
fn many_stars_take_no_exponential_time(rt: HostRuntime) {
    let alloc = rt.alloc();
    let mut stars = String::new(alloc);
    let mut letters = String::new(alloc);
    for _ in 0..60 {
        stars.push_str("*a").expect(&rt, "memory");
        letters.push_str("aa").expect(&rt, "memory");
    }
    stars.push_str("b").expect(&rt, "memory");
    let pattern = pattern(&rt, alloc, &stars);
    let matches = pattern.matches(alloc, &letters).expect(&rt, "memory");
    assert!(rt; !matches, "no `b` at the end");
}
