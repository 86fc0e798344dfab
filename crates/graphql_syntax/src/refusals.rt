//! Why tokens are refused.

ghost use Rattle.std.specs.Prelude.{◌≡◌};
ghost use Rattle.graphql_syntax.specs.declared.refusals.Refusal.TheVariants.{OutOfMemory};

use crate::keywords::Keyword;
use graphql_tokens::TokenKind;
use std::alloc::{AllocError, AllocFailed};

/// Why tokens are refused. A token is named by how many are left from it on, itself among them.
#[derive(Clone, Copy, Debug, PartialEq, Eq)]
pub enum Refusal {
    OutOfMemory,
    /// No text goes on with this token, or ends where none is left; and what was expected there.
    Unexpected(usize, Expected),
    /// With this token more brackets and braces are open than may be.
    TooDeep(usize),
}

/// What was expected in place of a token.
#[derive(Clone, Copy, Debug, PartialEq, Eq)]
pub enum Expected {
    Token(TokenKind),
    Keyword(Keyword),
    Value,
    ConstantValue,
    EnumValue,
    FragmentName,
    Selection,
    OperationType,
    Definition,
    TypeSystemDefinition,
    Extension,
    ExtensionPart,
    DirectiveLocation,
}

impl From<AllocError> for Refusal {
    ghost from_gives = { λ _ refusal. refusal ≡ OutOfMemory };

    fn from(_refusal: AllocError) -> Refusal {
        Refusal::OutOfMemory
    }
}

impl<T: Drop> From<AllocFailed<T>> for Refusal {
    ghost from_gives = { λ _ refusal. refusal ≡ OutOfMemory };

    fn from(_refusal: AllocFailed<T>) -> Refusal {
        Refusal::OutOfMemory
    }
}
