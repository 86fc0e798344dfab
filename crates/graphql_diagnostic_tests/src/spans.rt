use graphql_nodes::{FileId, SourceSpan};

fn span(file: u32, start: u32, end: u32) -> Option<SourceSpan> {
    Some(SourceSpan {
        file_id: FileId(file),
        start,
        end,
    })
}

#[test]
fn spans_are_recomposed(rt: HostRuntime) {
    let examples = [
        (span(1, 0, 5), span(1, 9, 14), span(1, 0, 14)),
        (span(1, 9, 14), span(1, 0, 5), span(1, 9, 14)),
        (span(1, 5, 9), span(1, 0, 5), span(1, 5, 5)),
        (span(1, 0, 5), span(2, 3, 4), span(2, 3, 4)),
        (span(1, 0, 5), None, span(1, 0, 5)),
        (None, span(1, 0, 5), span(1, 0, 5)),
        (None, None, None),
    ];
    for (left, right, both) in examples {
        if SourceSpan::recompose(left, right) != both {
            panic!(rt; "{left:?} and {right:?}");
        }
    }
}
