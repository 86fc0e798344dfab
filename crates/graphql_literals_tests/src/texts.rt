use crate::comparisons::whole_text;
use graphql_blanks::Part;
use graphql_literals::{Literal, Plucked, literals_in, text_of_literal};

#[test]
fn each_byte_has_its_place_of_the_program(rt: HostRuntime) {
    let programs = [
        (
            "é = '日本'; gql`{ a(b: \"é\") }`; c",
            "                   { a(b: \"é\") }",
        ),
        ("é\r\n\tgql`\n{ a }`", "  \r\n     \n{ a }"),
    ];
    for (program, text) in programs {
        let found = literals_in(rt.alloc(), program).expect(&rt, "memory");
        let Some(Plucked::Literal(literal)) = found.first() else {
            panic!(rt; "no literal in {program}");
        };
        let whole = whole_text(&rt, rt.alloc(), program, literal);
        assert_eq!(rt; whole.as_str(), text, "in {program}");
    }
}

#[test]
fn a_literal_of_another_program_may_have_no_text(rt: HostRuntime) {
    for end in [1, 3] {
        let literal = Literal {
            start: 0,
            end,
            holes: Vec::new(rt.alloc()),
        };
        let text = text_of_literal(rt.alloc(), "é", &literal).expect(&rt, "memory");
        assert!(rt; text.is_none(), "up to {end}");
    }
}

#[test]
fn a_part_of_a_character_is_no_text(rt: HostRuntime) {
    let mut holes = Vec::new(rt.alloc());
    holes.push(Part { start: 0, end: 1 }).expect(&rt, "memory");
    let literal = Literal {
        start: 0,
        end: 2,
        holes,
    };
    let text = text_of_literal(rt.alloc(), "é", &literal).expect(&rt, "memory");
    assert!(rt; text.is_none());
}
