use graphql_places::Place;

/// The lines `ab`, `cé`, nothing and `d`, ended in each of the three ways.
const TEXT: &str = "ab\r\ncé\n\rd";

/// Bytes of the text, and their lines and columns by the specification.
const PLACES: [(usize, usize, usize); 7] = [
    (0, 1, 1),
    (4, 2, 1),
    (5, 2, 2),
    (7, 2, 3),
    (8, 3, 1),
    (9, 4, 1),
    (10, 4, 2),
];

#[test]
fn bytes_have_lines_and_columns(rt: HostRuntime) {
    for (at, line, column) in PLACES {
        assert!(rt; at <= TEXT.len());
        let place = Place::of_byte(TEXT, at);
        assert_eq!(rt; (place.line, place.column), (line, column), "at {at}");
    }
}
