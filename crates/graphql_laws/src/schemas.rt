//! Laws of schemas that hold.

ghost use Rattle.std.specs.Prelude.{◌≡◌, ◌≢◌, [], Contains};
ghost use Rattle.graphql_nodes.specs.Names.{NameText, SameName};
ghost use Rattle.graphql_documents.specs.Schemas.{IsInputObject, type_definition};
ghost use Rattle.graphql_specification.specs.InputObjectCycles.{InputObjectHasNoCycle};
ghost use Rattle.graphql_specification.specs.DirectiveCycles.{DirectiveHasNoCycle};
ghost use Rattle.graphql_specification.specs.Schemas.{SchemaHolds};
ghost use Rattle.graphql_documents.specs.declared.documents.components.Component.{Component};
ghost use Rattle.graphql_documents.specs.declared.documents.definitions.DirectiveDefinition.{DirectiveDefinition};
ghost use Rattle.graphql_documents.specs.declared.documents.directives.Directive.{Directive};
ghost use Rattle.graphql_documents.specs.declared.documents.definitions.InputValueDefinition.{InputValueDefinition};
ghost use Rattle.graphql_nodes.specs.declared.nodes.Node.{Node};
ghost use Rattle.graphql_documents.specs.declared.documents.schemas.EnumType.{EnumType};
ghost use Rattle.graphql_documents.specs.declared.documents.schemas.ExtendedType.TheVariants.{Enum, InputObject};
ghost use Rattle.graphql_documents.specs.declared.documents.schemas.InputObjectType.{InputObjectType};
ghost use Rattle.graphql_documents.specs.declared.documents.schemas.Schema.{Schema};
ghost use Rattle.graphql_documents.specs.declared.documents.type_references.Type.TheVariants.{NonNullNamed};

/// A schema with an enum that has no values does not hold.
///
/// Specification: 3.9 Enums, Type Validation.
pub fn schema_with_an_empty_enum_does_not_hold()
    ensures { (schema : Schema) (key : NameText) (d : Node EnumType) →
        Contains schema.types.entries (key, Enum d) → d.value.value.values.entries ≡ [] → ¬ SchemaHolds schema }
{}

/// Two input objects that must each hold the other have a cycle.
///
/// Specification: 3.10 Input Objects, Circular References.
pub fn required_fields_in_a_circle_are_a_cycle()
    ensures { (schema : Schema) (a b : Node InputObjectType) (x y : NameText × Component InputValueDefinition) (to_b to_a : NameText) →
        Contains a.value.value.fields.entries x → x.1.node.value.value.ty.value.value ≡ NonNullNamed to_b →
        IsInputObject schema to_b b →
        Contains b.value.value.fields.entries y → y.1.node.value.value.ty.value.value ≡ NonNullNamed to_a →
        IsInputObject schema to_a a → SameName to_a a.value.value.name →
        ¬ InputObjectHasNoCycle schema a }
{}

/// A schema with such an input object does not hold.
///
/// Specification: 3.10 Input Objects, Type Validation.
pub fn schema_with_required_fields_in_a_circle_does_not_hold()
    ensures { (schema : Schema) (key : NameText) (a b : Node InputObjectType) (x y : NameText × Component InputValueDefinition) (to_b to_a : NameText) →
        Contains schema.types.entries (key, InputObject a) →
        Contains a.value.value.fields.entries x → x.1.node.value.value.ty.value.value ≡ NonNullNamed to_b →
        IsInputObject schema to_b b →
        Contains b.value.value.fields.entries y → y.1.node.value.value.ty.value.value ≡ NonNullNamed to_a →
        IsInputObject schema to_a a → SameName to_a a.value.value.name →
        ¬ SchemaHolds schema }
{}

/// Fields that are nullable or lists make no cycle, whatever they hold.
///
/// Specification: 3.10 Input Objects, Circular References.
pub fn nullable_fields_and_lists_are_no_cycle()
    ensures { (schema : Schema) (a : Node InputObjectType) →
        ((field : NameText × Component InputValueDefinition) (name : NameText) → Contains a.value.value.fields.entries field →
        field.1.node.value.value.ty.value.value ≢ NonNullNamed name) →
        InputObjectHasNoCycle schema a }
{}

/// Names of one text find one type in a schema, wherever they are.
///
/// Specification: 2.1.9 Names; 3.3 Schema.
pub fn names_of_one_text_find_one_type()
    ensures { (schema : Schema) (a b : NameText) → SameName a b → type_definition schema a ≡ type_definition schema b }
{}

/// A directive that is applied to an argument of its own has a cycle.
///
/// Specification: 3.13 Directives, Type Validation.
pub fn directive_on_its_own_argument_has_a_cycle()
    ensures { (schema : Schema) (d : Node DirectiveDefinition) (argument : Node InputValueDefinition) (applied : Node Directive) →
        Contains d.value.value.arguments.items argument → Contains argument.value.value.directives.items applied →
        SameName applied.value.value.name d.value.value.name →
        ¬ DirectiveHasNoCycle schema d }
{}

/// A schema with such a directive does not hold.
///
/// Specification: 3.13 Directives, Type Validation.
pub fn schema_with_a_directive_on_its_own_argument_does_not_hold()
    ensures { (schema : Schema) (key : NameText) (d : Node DirectiveDefinition) (argument : Node InputValueDefinition) (applied : Node Directive) →
        Contains schema.directive_definitions.entries (key, d) →
        Contains d.value.value.arguments.items argument → Contains argument.value.value.directives.items applied →
        SameName applied.value.value.name d.value.value.name →
        ¬ SchemaHolds schema }
{}
