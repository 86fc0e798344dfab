use graphql_nodes::{FileId, Name, SourceSpan};

/// Names around the length from which on a text has memory of its own.
const NAMES: &[&str] = &[
    "a",
    "_b9",
    "abcdefghijklmnopqrstuvwxyz",
    "abcdefghijklmnopqrstuvwxyz_",
    "abcdefghijklmnopqrstuvwxyz_ABCDEFGHIJKLMNOPQRSTUVWXYZ",
];

const PLACE: SourceSpan = SourceSpan {
    file_id: FileId(3),
    start: 4_294_967_290,
    end: 4_294_967_295,
};

#[test]
fn names_of_any_length_keep_their_text_and_place(rt: HostRuntime) {
    for text in NAMES {
        let owned = String::from_str(rt.alloc(), text).expect(&rt, "memory");
        let name = Name::new(owned, Some(PLACE)).expect(&rt, "a name");
        assert_eq!(rt; name.as_str(), *text);
        assert_eq!(rt; name.location(), Some(PLACE));
        let copy = name.clone().expect(&rt, "memory");
        assert!(rt; copy == name);
        assert_eq!(rt; copy.location(), Some(PLACE));
    }
}

#[test]
fn what_is_no_name_makes_none(rt: HostRuntime) {
    for text in ["", "9a", "a-b", "abcdefghijklmnopqrstuvwxyz é"] {
        let owned = String::from_str(rt.alloc(), text).expect(&rt, "memory");
        assert!(rt; Name::new(owned, None).is_none(), "in {text}");
    }
}

#[test]
fn names_are_made_of_bytes(rt: HostRuntime) {
    let name = Name::from_bytes(rt.alloc(), b"title", Some(PLACE)).expect(&rt, "memory");
    assert_eq!(rt; (name.as_str(), name.location()), ("title", Some(PLACE)));
}
