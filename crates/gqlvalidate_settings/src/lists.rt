//! Lists of texts in the values of a configuration.

ghost use Rattle.std.specs.Prelude.{◌≡◌, ◌∷◌, [], IfErr, IfOk, map, string_bytes};
ghost use Rattle.gqlvalidate_settings.specs.Refusals.{RulesOut};
ghost use Rattle.gqlvalidate_settings.specs.Settings.{AreTexts, Lists, ListsAt};

use crate::keys::Key;
use crate::refusals::{Problem, Refusal};
use crate::setting::{Setting, value_at};
use std::alloc::{AllocError, Global};

/// The texts that members list under a key: one text, or a list of texts; or none, if the key is missing.
pub(crate) fn texts_at(
    alloc: Global,
    members: &[(String, Setting)],
    key: Key,
) -> Result<Vec<String>, Refusal>
    ensures listed { IfOk result (λ texts. ListsAt key members.now (map string_bytes texts.items)) }
    ensures refused { IfErr result (RulesOut (ListsAt key members.now)) }
{
    match value_at(members, key) {
        Some(setting) => texts_of(alloc, setting, key),
        None => Ok(Vec::new(alloc)),
    }
}

/// The texts that the value of this key lists.
fn texts_of(alloc: Global, setting: &Setting, key: Key) -> Result<Vec<String>, Refusal>
    ensures listed { IfOk result (λ texts. Lists setting.now (map string_bytes texts.items)) }
    ensures refused { IfErr result (RulesOut (Lists setting.now)) }
{
    if let Some(text) = setting.as_text() {
        return Ok(single(alloc, text)?);
    }
    match setting.as_list() {
        Some(items) => texts_in(alloc, items, key),
        None => Err(Refusal::Wrong(key, Problem::NotTexts)),
    }
}

/// A list of one text.
fn single(alloc: Global, text: &str) -> Result<Vec<String>, AllocError>
    ensures { IfOk result (λ texts. map string_bytes texts.items ≡ text.now ∷ []) }
{
    let text = String::from_str(alloc, text)?;
    let mut texts = Vec::new(alloc);
    texts.push(text)?;
    Ok(texts)
}

/// The texts that are the items of a list.
fn texts_in(alloc: Global, items: &[Setting], key: Key) -> Result<Vec<String>, Refusal>
    ensures listed { IfOk result (λ texts. AreTexts items.now (map string_bytes texts.items)) }
    ensures refused { IfErr result (RulesOut (AreTexts items.now)) }
{
    let mut texts = Vec::new(alloc);
    for item in items {
        let Some(text) = item.as_text() else {
            return Err(Refusal::Wrong(key, Problem::NotTexts));
        };
        let text = String::from_str(alloc, text)?;
        texts.push(text)?;
    }
    Ok(texts)
}
