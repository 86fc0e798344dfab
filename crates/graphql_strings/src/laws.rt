//! Laws of the values of string tokens.

ghost use Rattle.std.specs.Prelude.{◌≡◌, ℕ, not, List, [], ◌++◌, IsTrue, IsUtf8, if◌then◌else◌};
ghost use Rattle.std.specs.List.{list_all};
ghost use Rattle.graphql_tokens.specs.Characters.{is_line_byte};
ghost use Rattle.graphql_tokens.specs.Strings.{IsBlockString};
ghost use Rattle.graphql_tokens.specs.Lexical.{IsToken};
ghost use Rattle.graphql_tokens.specs.declared.token.TokenKind.TheVariants.{StringValue, BlockString};
ghost use Rattle.graphql_strings.specs.BlockStrings.{is_blank};
ghost use Rattle.graphql_strings.specs.Values.{StandsFor, HasStringValue};

/// A text stands for one value at most.
///
/// Specification: 2.9.4 String Value.
#[tactic(auto, using(crate::proofs::ValueLemmas::one_value))]
pub fn a_text_stands_for_one_value()
    ensures { (text value other : List ℕ) → StandsFor text value → StandsFor text other → value ≡ other }
{}

/// Each string token of a text in UTF-8 has a value, whatever is behind it.
///
/// Specification: 2.9.4 String Value.
pub fn a_string_token_has_a_value()
    ensures string { (before text rest : List ℕ) → IsUtf8 (before ++ text) → IsToken StringValue text rest →
        (spelling value : List ℕ) × (text ≡ spelling ++ rest) × HasStringValue spelling value }
    ensures block_string { (before text rest : List ℕ) → IsUtf8 (before ++ text) → IsToken BlockString text rest →
        (spelling value : List ℕ) × (text ≡ spelling ++ rest) × HasStringValue spelling value }
{}

/// A block string with no line terminator stands for its line as it is, white space included, or for
/// nothing where the line contains only white space.
///
/// Specification: 2.9.4 String Value.
#[tactic(auto, using(crate::proofs::ValueLemmas::one_line_value))]
pub fn a_block_string_of_one_line_is_the_line()
    ensures { (text raw : List ℕ) → IsBlockString text raw [] → IsTrue (list_all (λ c. not (is_line_byte c)) raw) →
        StandsFor text (if is_blank raw then [] else raw) }
{}
