use super::fixtures::{argument_definition, name, node};
use graphql_nodes::{FileId, Node, SourceSpan};

#[test]
fn nodes_are_the_same_wherever_they_stand(rt: HostRuntime) {
    let place = SourceSpan {
        file_id: FileId(1),
        start: 2,
        end: 5,
    };
    let located = Node::new_located(rt.alloc(), name(&rt, rt.alloc(), "a"), place);
    let located = located.expect(&rt, "a node");
    let copy = located.clone().expect(&rt, "memory for a copy");
    assert_eq!(rt; copy.location, Some(place));
    assert!(rt; copy == node(&rt, rt.alloc(), name(&rt, rt.alloc(), "a")));
}

#[test]
fn copies_of_names_and_types_are_equal(rt: HostRuntime) {
    let alloc = rt.alloc();
    let definition = argument_definition(&rt, alloc, "(a: [Int!])");
    let (own, ty) = (&definition.value.name, &definition.value.ty);
    assert!(rt; own.clone().expect(&rt, "memory for a name") == *own);
    assert!(rt; ty.clone().expect(&rt, "memory for a type") == *ty);
    let ty = &*ty.value;
    assert!(rt; ty.clone().expect(&rt, "memory for a type") == *ty);
}
