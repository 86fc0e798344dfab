//! Extensions of types that no text defines.

ghost use Rattle.std.specs.Prelude.{◌≡◌, All, IfOk, IfSome, IsSome, map, string_bytes};
ghost use Rattle.graphql_literals.specs.Literals.{HasAsciiEnds, IsBlanked};
ghost use Rattle.graphql_repetitions.specs.References.{nows};
ghost use Rattle.graphql_schema_checking.specs.Definitions.{definitions_in};
ghost use Rattle.graphql_dialects.specs.Adoption.{adopted, adopted_among, is_adopted_among, keyword_of, keywords_in, parts_defined, same_span};

use graphql_blanks::Part;
use graphql_hash_seeds::HashSeed;
use graphql_literals::blank_parts;
use graphql_name_tables::{ByName, Named};
use graphql_nodes::{FileId, Name, SourceSpan, ValidationError};
use graphql_schema_checking::definitions::SortedDefinitions;
use graphql_schema_checking::kinds::{type_name, type_span};
use graphql_trees::{Document, TypeDefinition};
use std::alloc::{AllocError, Global};

/// How many bytes the keyword `extend` has.
const KEYWORD_LENGTH: usize = 6;

/// A definition or an extension of a type, which is found by the name of the type.
#[derive(Drop)]
pub struct TypePart<'a> {
    definition: &'a TypeDefinition,
}

impl<'a> Named for TypePart<'a> {
    ghost use Rattle.graphql_schema_checking.specs.Definitions.{name_of};

    ghost name_of = { λ part. name_of part.definition.now };

    fn name(&self) -> &Name {
        type_name(self.definition)
    }
}

/// The extensions of types that no text defines, each the first one of its type, in the order of the texts. The tables of names hash by this seed.
/// The only error is a failed allocation.
///
/// Apollo Federation 2: in a subgraph they define their types.
pub fn adopted_extensions<'a>(
    alloc: Global,
    hash_seed: HashSeed,
    trees: &'a [Document],
) -> Result<Vec<&'a TypeDefinition>, ValidationError>
    ensures { IfOk result (λ found. nows found.items ≡ adopted (definitions_in trees.now)) }
{
    let sorted = SortedDefinitions::of(alloc, trees)?;
    let extensions = &sorted.type_extensions;
    let defined = parts_of(alloc, &sorted.types)?;
    let extended = parts_of(alloc, extensions)?;
    let defined = ByName::new(alloc, hash_seed, &defined, extensions.len())?;
    let extended = ByName::new(alloc, hash_seed, &extended, extensions.len())?;
    Ok(adopted_among(alloc, extensions, &defined, &extended)?)
}

/// These definitions or extensions, each with its name.
fn parts_of<'a>(
    alloc: Global,
    definitions: &[&'a TypeDefinition],
) -> Result<Vec<TypePart<'a>>, AllocError>
    ensures { IfOk result (λ parts. parts_defined parts.items ≡ nows definitions.now) }
{
    let mut parts = Vec::new(alloc);
    for definition in definitions {
        parts.push(TypePart {
            definition: *definition,
        })?;
    }
    Ok(parts)
}

/// Those of the extensions that are adopted, if these definitions and extensions are all.
fn adopted_among<'a>(
    alloc: Global,
    extensions: &[&'a TypeDefinition],
    defined: &ByName<'_, TypePart<'a>>,
    extended: &ByName<'_, TypePart<'a>>,
) -> Result<Vec<&'a TypeDefinition>, AllocError>
    ensures { IfOk result (λ found. nows found.items ≡ adopted_among (parts_defined defined.now) (parts_defined extended.now) (nows extensions.now)) }
{
    let mut found = Vec::new(alloc);
    for extension in extensions {
        if is_adopted(*extension, defined, extended) {
            found.push(*extension)?;
        }
    }
    Ok(found)
}

fn is_adopted(
    extension: &TypeDefinition,
    defined: &ByName<'_, TypePart<'_>>,
    extended: &ByName<'_, TypePart<'_>>,
) -> bool
    ensures { result ≡ is_adopted_among (parts_defined defined.now) (parts_defined extended.now) extension.now }
{
    let name = type_name(extension);
    match (defined.find(name), extended.find(name)) {
        (None, Some(first)) => same_span(type_span(first.definition), type_span(extension)),
        _ => false,
    }
}

/// Whether the two are the same bytes of one file.
fn same_span(a: SourceSpan, b: SourceSpan) -> bool
    ensures { result ≡ same_span a b }
{
    a.file_id.0 == b.file_id.0 && a.start == b.start && a.end == b.end
}

/// The text of a file, in which the keyword `extend` of each of these extensions that is in the file is blank, and else each byte is the same.
/// None, if such a keyword begins or ends within a character: that of a tree of the text does not. The only error is a failed allocation.
pub fn adopted_text(
    alloc: Global,
    file_id: FileId,
    text: &str,
    adopted: &[&TypeDefinition],
) -> Result<Option<String>, AllocError>
    ensures text { IfOk result (λ found. IfSome found (λ it. IsBlanked text.now (keywords_in file_id (nows adopted.now)) (string_bytes it))) }
    ensures found { All (HasAsciiEnds text.now) (keywords_in file_id (nows adopted.now)) → IfOk result (λ found. IsSome found) }
{
    let keywords = keywords_in(alloc, file_id, adopted)?;
    blank_parts(alloc, text, &keywords)
}

/// The keywords of those of the extensions that are in the file.
fn keywords_in(
    alloc: Global,
    file_id: FileId,
    adopted: &[&TypeDefinition],
) -> Result<Vec<Part>, AllocError>
    ensures { IfOk result (λ keywords. keywords.items ≡ keywords_in file_id (nows adopted.now)) }
{
    let mut keywords = Vec::new(alloc);
    for extension in adopted {
        if type_span(*extension).file_id.0 == file_id.0 {
            keywords.push(keyword_of(*extension))?;
        }
    }
    Ok(keywords)
}

/// Where the keyword `extend` of an extension is.
fn keyword_of(extension: &TypeDefinition) -> Part
    ensures { result ≡ keyword_of extension.now }
{
    let start = type_span(extension).start as usize;
    Part {
        start,
        end: start + KEYWORD_LENGTH,
    }
}
