//! Laws of the tokens of a text.

ghost use Rattle.std.specs.Prelude.{◌≡◌, ℕ, List};
ghost use Rattle.graphql_tokens.specs.Lexical.{AreTokens, BreaksOff};
ghost use Rattle.graphql_tokens.specs.declared.token.Token.{Token};

/// A text has one list of tokens at most.
///
/// Specification: 2.1.6 Lexical Tokens.
pub fn a_text_has_one_list_of_tokens()
    ensures { (text : List ℕ) (tokens others : List Token) → AreTokens text tokens → AreTokens text others → tokens ≡ others }
{}

/// There is one place at most where no token begins, and no text that has one is a list of tokens.
///
/// Specification: 2.1.6 Lexical Tokens.
pub fn a_text_breaks_off_at_one_place()
    ensures one { (text : List ℕ) (tokens others : List Token) (at other : ℕ) →
        BreaksOff text tokens at → BreaksOff text others other → (tokens ≡ others) × (at ≡ other) }
    ensures instead { (text : List ℕ) (tokens others : List Token) (at : ℕ) →
        AreTokens text tokens → BreaksOff text others at → ⊥ }
{}
