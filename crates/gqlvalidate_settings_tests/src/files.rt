use crate::shown::shown;
use gqlvalidate_settings::{
    Settings, SettingsFault, find_settings_from, read_settings, settings_in,
};
use std::fs;
use std::process::Abort;
use std::rt::Files;

/// A folder for the files of these tests.
const FOLDER: &str = "settings_of_tests/";

/// Writes a file into the folder.
fn write(rt: &(impl Abort + AllocGlobal + Files), name: &str, text: &str) {
    let mut path = String::from_str(rt.alloc(), FOLDER).expect(rt, "memory");
    path.push_str(name).expect(rt, "memory");
    fs::write(rt, path.as_str(), text).expect(rt, "a file");
}

/// What is found in the folder.
fn found(rt: &(impl Abort + AllocGlobal + Files)) -> String {
    shown(rt.alloc(), settings_in(rt, FOLDER)).expect(rt, "memory")
}

/// What is read, as what is found.
fn as_found(read: Result<Settings, SettingsFault>) -> Result<Option<Settings>, SettingsFault> {
    match read {
        Ok(settings) => Ok(Some(settings)),
        Err(fault) => Err(fault),
    }
}

#[test]
fn the_first_file_of_a_folder_counts(rt: HostRuntime) {
    let _ = fs::remove_dir_all(&rt, FOLDER);
    fs::create_dir_all(&rt, FOLDER).expect(&rt, "a folder");
    assert_eq!(rt; found(&rt).as_str(), "none");
    write(&rt, "graphql.config.ts", "export default {}");
    assert_eq!(rt;
        found(&rt).as_str(),
        "settings_of_tests/graphql.config.ts: error: configurations in YAML and programs are not read: write `schema` and `documents` as JSON in `.graphqlrc.json`"
    );
    write(&rt, ".graphqlrc.yml", "schema: s");
    write(&rt, "package.json", "{}");
    assert_eq!(rt;
        found(&rt).as_str(),
        "settings_of_tests/.graphqlrc.yml: error: configurations in YAML and programs are not read: write `schema` and `documents` as JSON in `.graphqlrc.json`"
    );
    write(&rt, "package.json", "{\"graphql\": {\"schema\": \"p\"}}");
    assert_eq!(rt;
        found(&rt).as_str(),
        "settings_of_tests/package.json\n; schema settings_of_tests/p; documents; fragments"
    );
    write(&rt, "graphql.config.toml", "schema = 't'");
    assert_eq!(rt;
        found(&rt).as_str(),
        "settings_of_tests/graphql.config.toml\n; schema settings_of_tests/t; documents; fragments"
    );
    write(&rt, ".graphqlrc", "{\"schema\": \"r\"}");
    assert_eq!(rt;
        found(&rt).as_str(),
        "settings_of_tests/.graphqlrc\n; schema settings_of_tests/r; documents; fragments"
    );
    fs::create_dir_all(&rt, "settings_of_tests/a/b").expect(&rt, "a folder");
    let above = find_settings_from(&rt, "settings_of_tests/a/b/");
    let above = shown(rt.alloc(), above).expect(&rt, "memory");
    assert_eq!(rt;
        above.as_str(),
        "settings_of_tests/a/b/../../.graphqlrc\n; schema settings_of_tests/a/b/../../r; documents; fragments"
    );
    let read = read_settings(&rt, "settings_of_tests/graphql.config.toml");
    let read = shown(rt.alloc(), as_found(read)).expect(&rt, "memory");
    assert_eq!(rt;
        read.as_str(),
        "settings_of_tests/graphql.config.toml\n; schema settings_of_tests/t; documents; fragments"
    );
    let read = read_settings(&rt, "settings_of_tests/package.toml");
    assert!(rt; matches!(&read, Err(SettingsFault::Unread { .. })));
    fs::remove_dir_all(&rt, FOLDER).expect(&rt, "the folder");
}
