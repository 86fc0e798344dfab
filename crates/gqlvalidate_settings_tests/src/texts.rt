use crate::shown::shown;
use gqlvalidate_settings::settings_of_text;
use std::process::Abort;

/// A configuration, and what it lists or what is wrong.
struct Example {
    file: &'static str,
    folder: &'static str,
    text: &'static str,
    wanted: &'static str,
}

/// Configurations that are read.
const READ: &[Example] = &[
    Example {
        file: ".graphqlrc.json",
        folder: "",
        text: r#"{"schema": "schema.graphql", "documents": ["src/**/*.graphql", "!src/old.graphql"]}"#,
        wanted: ".graphqlrc.json\n; schema schema.graphql; documents src/**/*.graphql !src/old.graphql; fragments",
    },
    Example {
        file: "../../.graphqlrc",
        folder: "../../",
        text: " \n{\"schema\": [\"a.graphql\", \"/b.graphql\"], \"include\": \"src\", \"exclude\": [\"src/x\", \"/src/y\"], \"extensions\": {\"codegen\": {\"fragments\": 1}, \"gqlvalidate\": {\"fragments\": \"f.graphql\"}}}",
        wanted: "../../.graphqlrc\n; schema ../../a.graphql /b.graphql; documents ../../src !../../src/x !/src/y; fragments ../../f.graphql",
    },
    Example {
        file: "graphql.config.json",
        folder: "../",
        text: r#"{"schema": "a", "include": 1, "documents": ["!/b", "!c"], "other": [1]}"#,
        wanted: "graphql.config.json\n; schema ../a; documents !/b !../c; fragments",
    },
    Example {
        file: ".graphqlrc.toml",
        folder: "",
        text: "schema = ['a.graphql']\ndocuments = \"src\"\n\n[extensions.gqlvalidate]\nfragments = [\"f\", \"g\"]\n[extensions.other]\nanything = 1979-05-27\n",
        wanted: ".graphqlrc.toml\n; schema a.graphql; documents src; fragments f g",
    },
    Example {
        file: ".graphqlrc",
        folder: "",
        text: "# settings\nschema = 'a'\n",
        wanted: ".graphqlrc\n; schema a; documents; fragments",
    },
    Example {
        file: "package.json",
        folder: "../",
        text: r#"{"name": "web", "scripts": {"a": "1", "a": "2"}, "graphql": {"schema": "s", "documents": "d"}}"#,
        wanted: "package.json\n; schema ../s; documents ../d; fragments",
    },
    Example {
        file: "../package.json",
        folder: "../",
        text: r#"{"name": "web"}"#,
        wanted: "none",
    },
    Example {
        file: ".graphqlrc.json",
        folder: "",
        text: r#"{"projects": {"web": {"schema": "s", "documents": "w", "extensions": {"gqlvalidate": {"fragments": "own"}}}, "app": {"schema": "t"}}, "extensions": {"gqlvalidate": {"fragments": ["all"]}}}"#,
        wanted: ".graphqlrc.json\nweb; schema s; documents w; fragments all own\napp; schema t; documents; fragments all",
    },
    Example {
        file: "graphql.config.toml",
        folder: "",
        text: "[projects.web]\nschema = 's'\n[projects.app]\nschema = 't'\n",
        wanted: "graphql.config.toml\napp; schema t; documents; fragments\nweb; schema s; documents; fragments",
    },
];

/// Configurations that name dialects.
const DIALECTS: &[Example] = &[
    Example {
        file: ".graphqlrc.json",
        folder: "",
        text: r#"{"schema": "s", "extensions": {"gqlvalidate": {"client": "apollo", "federation": 2}}}"#,
        wanted: ".graphqlrc.json\n; schema s; documents; fragments; client Apollo; federation",
    },
    Example {
        file: ".graphqlrc.json",
        folder: "",
        text: r#"{"schema": "s", "extensions": {"gqlvalidate": {"client": "relay"}}}"#,
        wanted: ".graphqlrc.json\n; schema s; documents; fragments; client Relay",
    },
    Example {
        file: "package.json",
        folder: "",
        text: r#"{"graphql": {"schema": "s", "extensions": {"gqlvalidate": {"federation": "2"}}}}"#,
        wanted: "package.json\n; schema s; documents; fragments; federation",
    },
    Example {
        file: ".graphqlrc.toml",
        folder: "",
        text: "schema = 's'\n[extensions.gqlvalidate]\nfederation = 2\nclient = 'urql'\n",
        wanted: ".graphqlrc.toml\n; schema s; documents; fragments; client Urql; federation",
    },
    Example {
        file: ".graphqlrc.toml",
        folder: "",
        text: "schema = 's'\n[extensions.gqlvalidate]\nfederation = '2'\n",
        wanted: ".graphqlrc.toml\n; schema s; documents; fragments; federation",
    },
    Example {
        file: ".graphqlrc.json",
        folder: "",
        text: r#"{"projects": {"web": {"extensions": {"gqlvalidate": {"client": "urql"}}}, "app": {"extensions": {"gqlvalidate": {"federation": 2}}}, "old": {}}, "extensions": {"gqlvalidate": {"client": "apollo"}}}"#,
        wanted: ".graphqlrc.json\nweb; schema; documents; fragments; client Urql\napp; schema; documents; fragments; client Apollo; federation\nold; schema; documents; fragments; client Apollo",
    },
    Example {
        file: ".graphqlrc.json",
        folder: "",
        text: r#"{"projects": {"web": {"extensions": {"gqlvalidate": {"client": "urql"}}}}, "extensions": {"gqlvalidate": {"federation": 2}}}"#,
        wanted: ".graphqlrc.json\nweb; schema; documents; fragments; client Urql; federation",
    },
];

/// Configurations that name no dialect that there is.
const REFUSED_DIALECTS: &[Example] = &[
    Example {
        file: ".graphqlrc.json",
        folder: "",
        text: "{\"extensions\": {\"gqlvalidate\": {\n  \"client\": \"Apollo\"}}}",
        wanted: ".graphqlrc.json:2:3: error: `extensions.gqlvalidate.client` is no client: use `apollo`, `relay` or `urql`",
    },
    Example {
        file: ".graphqlrc.json",
        folder: "",
        text: "{\"client\": \"a\", \"extensions\": {\"gqlvalidate\": {\"federation\": 2,\n\"client\": [\"apollo\"]}}}",
        wanted: ".graphqlrc.json:2:1: error: `extensions.gqlvalidate.client` is no client: use `apollo`, `relay` or `urql`",
    },
    Example {
        file: ".graphqlrc.json",
        folder: "",
        text: "{\"extensions\": {\"gqlvalidate\": {\n \"federation\": 2.0}}}",
        wanted: ".graphqlrc.json:2:2: error: `extensions.gqlvalidate.federation` is no version of Federation: use `2`",
    },
    Example {
        file: ".graphqlrc.json",
        folder: "",
        text: "{\"extensions\": {\"gqlvalidate\": {\n \"federation\": true}}}",
        wanted: ".graphqlrc.json:2:2: error: `extensions.gqlvalidate.federation` is no version of Federation: use `2`",
    },
    Example {
        file: "package.json",
        folder: "",
        text: "{\"graphql\": {\"extensions\": {\"gqlvalidate\": {\n \"federation\": \"v2\"}}}}",
        wanted: "package.json:2:2: error: `graphql.extensions.gqlvalidate.federation` is no version of Federation: use `2`",
    },
    Example {
        file: ".graphqlrc.toml",
        folder: "",
        text: "[extensions.gqlvalidate]\nclient = 1\n",
        wanted: ".graphqlrc.toml:2:1: error: `extensions.gqlvalidate.client` is no client: use `apollo`, `relay` or `urql`",
    },
    Example {
        file: ".graphqlrc.toml",
        folder: "",
        text: "[extensions.gqlvalidate]\nclient = 'apollo'\nfederation = 1\n",
        wanted: ".graphqlrc.toml:3:1: error: `extensions.gqlvalidate.federation` is no version of Federation: use `2`",
    },
    Example {
        file: ".graphqlrc.json",
        folder: "",
        text: "{\"projects\": {\"web\": {\"extensions\": {\"gqlvalidate\": {\"client\": \"urql\"}}},\n\"app\": {\"extensions\": {\"gqlvalidate\": {\n    \"client\": null}}}}}",
        wanted: ".graphqlrc.json:3:5: error: `projects.app.extensions.gqlvalidate.client` is no client: use `apollo`, `relay` or `urql`",
    },
];

/// Configurations in JSON that are refused.
const REFUSED_JSON: &[Example] = &[
    Example {
        file: ".graphqlrc.json",
        folder: "",
        text: "{\"schema\": 1}",
        wanted: ".graphqlrc.json:1:2: error: `schema` names no file: schemas are read from files, which a text or a list of texts names",
    },
    Example {
        file: "a/.graphqlrc.json",
        folder: "a/",
        text: "{\"schema\": \"s\",\n \"documents\": [\"a\", 1]}",
        wanted: "a/.graphqlrc.json:2:2: error: `documents` is neither a text nor a list of texts",
    },
    Example {
        file: ".graphqlrc.json",
        folder: "",
        text: "{\n  \"schema\": [{\"https://example.org/graphql\": {\"headers\": {\"schema\": \"a\"}}}]\n}",
        wanted: ".graphqlrc.json:2:3: error: `schema` names no file: schemas are read from files, which a text or a list of texts names",
    },
    Example {
        file: ".graphqlrc.json",
        folder: "",
        text: "{\"schema\": \"https://example.org/graphql\"}",
        wanted: ".graphqlrc.json:1:2: error: `schema` names no file: schemas are read from files, which a text or a list of texts names",
    },
    Example {
        file: ".graphqlrc.json",
        folder: "",
        text: "{\"extensions\": {\n  \"fragmnts\": {},\n  \"gqlvalidate\": {\"fragments\": \"f\",\n    \"fragmnts\": \"g\"}}}",
        wanted: ".graphqlrc.json:4:5: error: `extensions.gqlvalidate.fragmnts` is not a setting of this program, which has only `fragments`, `rules`, `client` and `federation`",
    },
    Example {
        file: ".graphqlrc.json",
        folder: "",
        text: "{\"projects\": {\"web\": {}},\n\"documents\": \"d\"}",
        wanted: ".graphqlrc.json:2:1: error: `documents` must be a key of each project, if there are `projects`",
    },
    Example {
        file: ".graphqlrc.json",
        folder: "",
        text: "{\"projects\": {\"web\": {\"documents\": \"d\"},\n \"app\": {\"schema\": \"s\",\n  \"documents\": {}}}}",
        wanted: ".graphqlrc.json:3:3: error: `projects.app.documents` is neither a text nor a list of texts",
    },
    Example {
        file: ".graphqlrc.json",
        folder: "",
        text: "{\"projects\":\n{\"app\": \"s\"}}",
        wanted: ".graphqlrc.json:2:2: error: `projects.app` is not an object (in TOML: a table)",
    },
    Example {
        file: "package.json",
        folder: "",
        text: "{\"schema\": 1, \"graphql\":\n{\"schema\": 1}}",
        wanted: "package.json:2:2: error: `graphql.schema` names no file: schemas are read from files, which a text or a list of texts names",
    },
    Example {
        file: ".graphqlrc.json",
        folder: "",
        text: "{\"schema\": \"s\",\n}",
        wanted: ".graphqlrc.json:2:1: error: this is not JSON, or is nested too deep",
    },
    Example {
        file: ".graphqlrc.json",
        folder: "",
        text: "{\"schema\": \"s\"\n \"documents\": 1}",
        wanted: ".graphqlrc.json:2:2: error: this is not JSON, or is nested too deep",
    },
    Example {
        file: ".graphqlrc.json",
        folder: "",
        text: "{\"schema\": \"s\", \"schema\": \"t\"}",
        wanted: ".graphqlrc.json: error: an object has a key twice",
    },
    Example {
        file: ".graphqlrc.json",
        folder: "",
        text: "[\"schema\"]",
        wanted: ".graphqlrc.json: error: the configuration is not an object",
    },
];

/// Configurations in other languages that are refused.
const REFUSED_OTHERS: &[Example] = &[
    Example {
        file: ".graphqlrc.toml",
        folder: "",
        text: "# a\nschema = 's'\n\n  documents = [\n  'd',\n  1,\n]\n",
        wanted: ".graphqlrc.toml:4:3: error: `documents` is neither a text nor a list of texts",
    },
    Example {
        file: ".graphqlrc.toml",
        folder: "",
        text: "other = \"\"\"\nschema = 1\n\"\"\"\nschema = 2\n",
        wanted: ".graphqlrc.toml:4:1: error: `schema` names no file: schemas are read from files, which a text or a list of texts names",
    },
    Example {
        file: ".graphqlrc.toml",
        folder: "",
        text: "schema = 's'\n[extensions.gqlvalidate]\nfragments = 'f'\n\n# wrong\nfragmnts = 'g'",
        wanted: ".graphqlrc.toml:6:1: error: `extensions.gqlvalidate.fragmnts` is not a setting of this program, which has only `fragments`, `rules`, `client` and `federation`",
    },
    Example {
        file: ".graphqlrc.toml",
        folder: "",
        text: "schema = 's'\nextensions = 1\n",
        wanted: ".graphqlrc.toml:2:1: error: `extensions` is not an object (in TOML: a table)",
    },
    Example {
        file: ".graphqlrc.yml",
        folder: "",
        text: "schema: s\n",
        wanted: ".graphqlrc.yml: error: configurations in YAML and programs are not read: write `schema` and `documents` as JSON in `.graphqlrc.json`",
    },
];

fn check(rt: &(impl Abort + AllocGlobal), examples: &[Example]) {
    for example in examples {
        let found = settings_of_text(rt.alloc(), example.file, example.folder, example.text);
        let shown = shown(rt.alloc(), found).expect(rt, "memory");
        assert_eq!(rt; shown.as_str(), example.wanted);
    }
}

#[test]
fn configurations_are_read(rt: HostRuntime) {
    check(&rt, READ);
}

#[test]
fn dialects_are_read(rt: HostRuntime) {
    check(&rt, DIALECTS);
}

#[test]
fn wrong_dialects_are_refused(rt: HostRuntime) {
    check(&rt, REFUSED_DIALECTS);
}

#[test]
fn wrong_json_is_refused(rt: HostRuntime) {
    check(&rt, REFUSED_JSON);
}

#[test]
fn wrong_toml_and_other_languages_are_refused(rt: HostRuntime) {
    check(&rt, REFUSED_OTHERS);
}

/// The error of the parser of TOML is the kit's own, so only the rest of the line is compared.
#[test]
fn texts_that_are_not_toml_are_refused_where_they_are_wrong(rt: HostRuntime) {
    let found = settings_of_text(
        rt.alloc(),
        ".graphqlrc.toml",
        "",
        "schema = 's'\ndocuments: d\n",
    );
    let toml = shown(rt.alloc(), found).expect(&rt, "memory");
    assert!(rt;
        toml.as_str()
            .starts_with(".graphqlrc.toml:2:10: error: this is not TOML: "),
        "{toml}"
    );
    let found = settings_of_text(rt.alloc(), ".graphqlrc", "", "schema: s\n");
    let yaml = shown(rt.alloc(), found).expect(&rt, "memory");
    assert!(rt;
        yaml.as_str()
            .starts_with(".graphqlrc:1:7: error: this is not JSON"),
        "{yaml}"
    );
    assert!(rt;
        yaml.as_str().contains("as JSON in `.graphqlrc.json`"),
        "{yaml}"
    );
}
