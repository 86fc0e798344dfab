//! How grave a change is.

ghost use Rattle.std.specs.Prelude.{◌≡◌, Bool, IsTrue, false, not};
ghost use Rattle.graphql_change_kinds.specs.Breaks.{breaks, breaks_selections, breaks_subscriptions, can_become, is_breaking, is_given, is_input_change};

use crate::changes::{Change, Gain, InputCoordinate, SchemaChange, TypeEffect, TypeKind};
use graphql_schema_parts::is_executable_location;

/// How grave a change is.
#[derive(Clone, Copy, Debug, PartialEq, Eq)]
pub enum Level {
    Breaking(BreakingReason),
    /// Documents stay valid and responses keep their form. But responses may hold values that they could not hold, or the
    /// same request means something else, or values are checked less.
    Dangerous,
    Safe,
}

/// What a change breaks.
#[derive(Clone, Copy, Debug, PartialEq, Eq)]
pub enum BreakingReason {
    /// A document that was valid no longer is.
    Documents,
    /// A document that was valid no longer is, but each such document puts two fields under one response key.
    Merging,
    /// Documents stay valid, but a response may have another form.
    Responses,
}

impl SchemaChange {
    /// How grave the change is.
    pub fn level(&self) -> Level {
        self.change.level()
    }

    /// Whether what it is about was not in the schema.
    pub fn is_addition(&self) -> bool {
        matches!(
            &self.change,
            Change::RootAdded { .. }
                | Change::TypeAdded(_)
                | Change::FieldAdded(_)
                | Change::InputAdded { .. }
                | Change::EnumValueAdded(_)
                | Change::MemberAdded { .. }
                | Change::InterfaceAdded { .. }
                | Change::DirectiveAdded(_)
        )
    }

    /// Whether what it is about is no longer in the schema.
    pub fn is_removal(&self) -> bool {
        matches!(
            &self.change,
            Change::RootRemoved { .. }
                | Change::TypeRemoved(_)
                | Change::FieldRemoved(_)
                | Change::InputRemoved(_)
                | Change::EnumValueRemoved(_)
                | Change::MemberRemoved { .. }
                | Change::InterfaceRemoved { .. }
                | Change::DirectiveRemoved { .. }
        )
    }
}

impl Change {
    /// Whether some documents break that were valid: with merging, of all documents; without it, of those in which no two fields come
    /// together in a response.
    pub fn breaks(&self, merging: bool) -> bool
        ensures { result ≡ breaks merging self.now }
    {
        match self.level() {
            Level::Breaking(BreakingReason::Documents) => true,
            Level::Breaking(BreakingReason::Merging) => merging,
            _ => false,
        }
    }

    /// How grave the change is for documents that have no two fields under one response key.
    pub fn level_of_lone_fields(&self) -> Level
        ensures { is_breaking false result ≡ breaks false self.now }
    {
        match self {
            Change::FieldTypeChanged {
                from,
                to,
                effect: TypeEffect::MeetsOther(_),
                ..
            } => {
                if to.is_assignable_to(from) {
                    Level::Safe
                } else {
                    Level::Breaking(BreakingReason::Responses)
                }
            }
            _ => self.level(),
        }
    }

    /// How grave the change is.
    pub fn level(&self) -> Level
        ensures { (merging : Bool) → is_breaking merging result ≡ breaks merging self.now }
    {
        match self {
            Change::RootRemoved { .. }
            | Change::RootChanged { .. }
            | Change::TypeRemoved(_)
            | Change::FieldRemoved(_)
            | Change::EnumValueRemoved(_)
            | Change::MemberRemoved { .. } => DOCUMENTS,
            Change::KindChanged { from, to, .. } => level_of_kinds(*from, *to),
            Change::FieldTypeChanged { effect, .. } => level_of_effect(effect),
            Change::InputAdded { .. }
            | Change::InputRemoved(_)
            | Change::InputTypeChanged { .. }
            | Change::DefaultAdded(_)
            | Change::DefaultRemoved { .. }
            | Change::DefaultChanged(_) => self.level_of_input(),
            Change::InterfaceRemoved { is_lost, .. } => documents_if(*is_lost),
            Change::DirectiveRemoved { is_executable, .. }
            | Change::RepeatableRemoved { is_executable, .. } => documents_if(*is_executable),
            Change::LocationRemoved { location, .. } => {
                documents_if(is_executable_location(*location))
            }
            Change::EnumValueAdded(_) => Level::Dangerous,
            Change::MemberAdded { gain, .. } | Change::InterfaceAdded { gain, .. } => {
                level_of_gain(*gain)
            }
            Change::RootAdded { .. }
            | Change::TypeAdded(_)
            | Change::FieldAdded(_)
            | Change::DirectiveAdded(_)
            | Change::LocationAdded { .. }
            | Change::RepeatableAdded(_) => Level::Safe,
        }
    }

    /// How grave a change of an argument or an input field is.
    fn level_of_input(&self) -> Level
        requires { IsTrue (is_input_change self.now) }
        ensures { (merging : Bool) → is_breaking merging result ≡ breaks merging self.now }
    {
        match self {
            Change::InputAdded { input, is_required } => {
                documents_if(input.is_in_documents() && *is_required)
            }
            Change::InputRemoved(input) => documents_if(input.is_in_documents()),
            Change::InputTypeChanged { input, from, to } => {
                documents_if(input.is_in_documents() && !from.is_assignable_to(to))
            }
            Change::DefaultRemoved { input, is_required } => {
                if *is_required {
                    documents_if(input.is_in_documents())
                } else {
                    input.level_of_default()
                }
            }
            Change::DefaultAdded(input) | Change::DefaultChanged(input) => {
                input.level_of_default()
            }
            _ => Level::Safe,
        }
    }
}

const DOCUMENTS: Level = Level::Breaking(BreakingReason::Documents);

fn documents_if(breaks: bool) -> Level
    ensures { (merging : Bool) → is_breaking merging result ≡ breaks }
{
    if breaks { DOCUMENTS } else { Level::Safe }
}

/// The level of a type of one kind that becomes one of another.
fn level_of_kinds(from: TypeKind, to: TypeKind) -> Level
    ensures { (merging : Bool) → is_breaking merging result ≡ not (can_become from to) }
{
    if !from.can_become(to) {
        DOCUMENTS
    } else if to == TypeKind::CustomScalar {
        Level::Dangerous
    } else {
        Level::Safe
    }
}

fn level_of_gain(gain: Gain) -> Level
    ensures { (merging : Bool) → is_breaking merging result ≡ breaks_subscriptions gain }
{
    match gain {
        Gain::SubscriptionRoot => DOCUMENTS,
        Gain::Object => Level::Dangerous,
        Gain::Nothing => Level::Safe,
    }
}

fn level_of_effect(effect: &TypeEffect) -> Level
    ensures { (merging : Bool) → is_breaking merging result ≡ breaks_selections merging effect.now }
{
    match effect {
        TypeEffect::OtherSelections => DOCUMENTS,
        TypeEffect::MeetsOther(_) => Level::Breaking(BreakingReason::Merging),
        TypeEffect::OtherResponses => Level::Breaking(BreakingReason::Responses),
        TypeEffect::Narrower => Level::Safe,
    }
}

impl InputCoordinate {
    /// Whether documents can give it a value.
    pub fn is_in_documents(&self) -> bool
        ensures { result ≡ is_given self.now }
    {
        !matches!(self, InputCoordinate::SchemaDirectiveArgument(_))
    }

    /// The level of a default that is another one, while documents stay valid.
    fn level_of_default(&self) -> Level
        ensures { (merging : Bool) → is_breaking merging result ≡ false }
    {
        if self.is_in_documents() {
            Level::Dangerous
        } else {
            Level::Safe
        }
    }
}
