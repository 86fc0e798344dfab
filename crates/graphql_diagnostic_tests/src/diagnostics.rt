use graphql_diagnostics::{Details, DiagnosticList};
use graphql_nodes::{FileId, RecursionLimitError, SourceSpan};

#[test]
fn lists_keep_the_order_of_push(rt: HostRuntime) {
    let mut list = DiagnosticList::new(rt.alloc());
    assert!(rt; list.is_empty());
    for start in 0..3 {
        let place = SourceSpan {
            file_id: FileId(1),
            start,
            end: 5,
        };
        let details = Details::RecursionLimit(RecursionLimitError);
        list.push(Some(place), details).expect(&rt, "memory");
    }
    assert_eq!(rt; list.len(), 3);
    for (start, entry) in list.iter().enumerate() {
        assert!(rt;
            entry
                .location
                .is_some_and(|place| place.start as usize == start)
        );
    }
}
