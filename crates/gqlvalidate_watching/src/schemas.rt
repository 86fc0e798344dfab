//! A schema, with the texts from which it was read.

ghost use Rattle.graphql_frontend.specs.Schemas.{IsUsable};

use graphql_documents::documents::Schema;
use graphql_frontend::SourceText;
use std::alloc::{AllocError, Global};
use std::marker::Model;

/// A text, and the number of its file.
#[derive(Drop)]
struct SchemaText {
    file: u32,
    text: String,
}

impl SchemaText {
    /// Whether it is this one.
    fn is(&self, source: SourceText<'_>) -> bool {
        self.file == source.file_id.0 && self.text.as_str() == source.text
    }
}

/// A schema, with the texts from which it was read.
#[derive(Drop)]
pub(crate) struct KeptSchema {
    texts: Vec<SchemaText>,
    /// They were read as a subgraph.
    federation: bool,
    schema: Schema,
}

impl Model for KeptSchema {
    ghost use Rattle.graphql_frontend.specs.Schemas.{IsUsable};
    ghost use Rattle.std.specs.Prelude.{Bool};

    ghost Value = { Bool };

    ghost view = { λ kept. kept.federation };

    ghost invariant = { λ kept. IsUsable kept.schema };
}

impl KeptSchema {
    /// A schema that was read from these texts, perhaps as a subgraph.
    pub(crate) fn of(
        alloc: Global,
        texts: &[SourceText<'_>],
        federation: bool,
        schema: Schema,
    ) -> Result<KeptSchema, AllocError>
        requires { IsUsable schema }
    {
        Ok(KeptSchema {
            texts: copied(alloc, texts)?,
            federation,
            schema,
        })
    }

    pub(crate) fn into_schema(self) -> Schema
        ensures { IsUsable result }
    {
        let KeptSchema { schema, .. } = self;
        schema
    }

    /// Whether the same schema is read from these texts.
    pub(crate) fn is_of(&self, texts: &[SourceText<'_>], federation: bool) -> bool {
        self.federation == federation
            && self.texts.len() == texts.len()
            && self
                .texts
                .iter()
                .zip(texts.iter())
                .all(|(text, source)| text.is(*source))
    }
}

fn copied(alloc: Global, sources: &[SourceText<'_>]) -> Result<Vec<SchemaText>, AllocError> {
    let mut texts = Vec::new(alloc);
    for source in sources {
        texts.push(SchemaText {
            file: source.file_id.0,
            text: String::from_str(alloc, source.text)?,
        })?;
    }
    Ok(texts)
}
