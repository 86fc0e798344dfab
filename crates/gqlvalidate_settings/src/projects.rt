//! The projects of a configuration.

ghost use Rattle.std.specs.Option.{option_copied};
ghost use Rattle.std.specs.Prelude.{◌≡◌, IfErr, IfOk, MatchResult, map, string_bytes};
ghost use Rattle.std.specs.List.{list_any};
ghost use Rattle.gqlvalidate_settings.specs.Projects.{AreDocumentWords, AreFragments, AreSchemaWords, IsOwnTable, IsProject, KnownFragments, documents_key, is_known, is_url, unknown_member};
ghost use Rattle.gqlvalidate_settings.specs.Refusals.{RulesOut};
ghost use Rattle.gqlvalidate_settings.specs.Settings.{TableAt};

use crate::keys::Key;
use crate::lists::texts_at;
use crate::paths::{push_left_out, push_placed};
use crate::refusals::{Problem, Refusal};
use crate::setting::{Setting, value_at};
use std::alloc::Global;

/// What a configuration says of a project, in words of a command line: paths and patterns relative to the working folder.
#[derive(Debug, Drop)]
pub struct ProjectSettings {
    /// The name of the project, if the configuration has names.
    pub name: Option<String>,
    /// Name the files of the schema.
    pub schema: Vec<String>,
    /// Name the documents. One that begins with a `!` leaves documents out that the words before it name.
    pub documents: Vec<String>,
    /// Name the files of fragments that all documents may use.
    pub fragments: Vec<String>,
}

/// The settings of a project of a configuration in a folder, whose path is empty or ends in `/`. The configuration lists the shared
/// fragments for all projects. The error says what is wrong.
pub(crate) fn project_of(
    alloc: Global,
    folder: &str,
    shared: &[String],
    members: &[(String, Setting)],
) -> Result<ProjectSettings, Refusal>
    ensures project { IfOk result (IsProject folder.now (map string_bytes shared.now) members.now) }
    ensures name { IfOk result (λ project. project.name ≡ None) }
    ensures refused { IfErr result (RulesOut (IsProject folder.now (map string_bytes shared.now) members.now)) }
{
    let schema = schema_words(alloc, folder, members)?;
    let documents = document_words(alloc, folder, members)?;
    let own = fragments_of(alloc, members)?;
    let mut fragments = Vec::new(alloc);
    push_placed(&mut fragments, alloc, folder, shared)?;
    push_placed(&mut fragments, alloc, folder, &own)?;
    Ok(ProjectSettings {
        name: None,
        schema,
        documents,
        fragments,
    })
}

/// Whether the text names a server, and no file.
fn is_url(text: &str) -> bool
    ensures { result ≡ is_url text.now }
{
    text.starts_with("http://") || text.starts_with("https://")
}

/// The words that name the files of a schema.
#[tactic(auto, using(crate::proofs::ListLemmas::any_map))]
fn schema_words(
    alloc: Global,
    folder: &str,
    members: &[(String, Setting)],
) -> Result<Vec<String>, Refusal>
    ensures words { IfOk result (λ words. AreSchemaWords folder.now members.now (map string_bytes words.items)) }
    ensures refused { IfErr result (RulesOut (AreSchemaWords folder.now members.now)) }
{
    let listed = texts_at(alloc, members, Key::Schema)?;
    if has_url(&listed) {
        return Err(Refusal::Wrong(Key::Schema, Problem::NoFiles));
    }
    let mut words = Vec::new(alloc);
    push_placed(&mut words, alloc, folder, &listed)?;
    Ok(words)
}

/// Whether a text names a server, and no file.
fn has_url(texts: &[String]) -> bool
    ensures { result ≡ list_any (λ text. is_url (string_bytes text)) texts.now }
{
    texts.iter().any(|text| is_url(text.as_str()))
}

/// The key that lists the documents.
fn documents_key(members: &[(String, Setting)]) -> Key
    ensures { result ≡ documents_key members.now }
{
    if value_at(members, Key::Documents).is_some() {
        Key::Documents
    } else {
        Key::Include
    }
}

/// The words that name the documents of a project.
fn document_words(
    alloc: Global,
    folder: &str,
    members: &[(String, Setting)],
) -> Result<Vec<String>, Refusal>
    ensures words { IfOk result (λ words. AreDocumentWords folder.now members.now (map string_bytes words.items)) }
    ensures refused { IfErr result (RulesOut (AreDocumentWords folder.now members.now)) }
{
    let listed = texts_at(alloc, members, documents_key(members))?;
    let excluded = texts_at(alloc, members, Key::Exclude)?;
    let mut words = Vec::new(alloc);
    push_placed(&mut words, alloc, folder, &listed)?;
    push_left_out(&mut words, alloc, folder, &excluded)?;
    Ok(words)
}

/// The table that members have under a key, if they have the key.
pub(crate) fn table_at(
    members: &[(String, Setting)],
    key: Key,
) -> Result<Option<&[(String, Setting)]>, Refusal>
    ensures { MatchResult result (λ table. TableAt key members.now (option_copied table))
        (RulesOut (TableAt key members.now)) }
{
    let Some(setting) = value_at(members, key) else {
        return Ok(None);
    };
    match setting.as_table() {
        Some(table) => Ok(Some(table)),
        None => Err(Refusal::Wrong(key, Problem::NotATable)),
    }
}

/// What members say of this program, if they say anything.
pub(crate) fn own_table(
    members: &[(String, Setting)],
) -> Result<Option<&[(String, Setting)]>, Refusal>
    ensures own { IfOk result (λ own. IsOwnTable members.now (option_copied own)) }
    ensures refused { IfErr result (RulesOut (IsOwnTable members.now)) }
{
    match table_at(members, Key::Extensions)? {
        Some(extensions) => table_at(extensions, Key::Program),
        None => Ok(None),
    }
}

/// The fragments that this program is to read, as they are written.
pub(crate) fn fragments_of(
    alloc: Global,
    members: &[(String, Setting)],
) -> Result<Vec<String>, Refusal>
    ensures fragments { IfOk result (λ listed. AreFragments members.now (map string_bytes listed.items)) }
    ensures refused { IfErr result (RulesOut (AreFragments members.now)) }
{
    match own_table(members)? {
        Some(own) => known_fragments(alloc, own),
        None => Ok(Vec::new(alloc)),
    }
}

/// The fragments that this program is to read, from what a configuration says of it.
fn known_fragments(alloc: Global, own: &[(String, Setting)]) -> Result<Vec<String>, Refusal>
    ensures fragments { IfOk result (λ listed. KnownFragments own.now (map string_bytes listed.items)) }
    ensures refused { IfErr result (RulesOut (KnownFragments own.now)) }
{
    if let Some(member) = unknown_member(own) {
        return Err(Refusal::Unknown(String::from_str(alloc, member.0.as_str())?));
    }
    texts_at(alloc, own, Key::Fragments)
}

/// The first member that this program does not know.
fn unknown_member(own: &[(String, Setting)]) -> Option<&(String, Setting)>
    ensures { option_copied result ≡ unknown_member own.now }
{
    own.iter().find(|member| !is_known(member.0.as_str()))
}

/// Whether this program has a setting of this name.
fn is_known(name: &str) -> bool
    ensures { result ≡ is_known name.now }
{
    name == Key::Fragments.name()
        || name == Key::Rules.name()
        || name == Key::Client.name()
        || name == Key::Federation.name()
}
