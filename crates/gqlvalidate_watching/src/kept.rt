//! What a run of one project keeps for the next one.

ghost use Rattle.std.specs.Prelude.{IfSome};
ghost use Rattle.graphql_frontend.specs.Schemas.{IsUsable};

use crate::lists::lists_of;
use crate::projects::{KeptProject, Part};
use crate::schemas::KeptSchema;
use graphql_documents::documents::Schema;
use graphql_frontend::{Bounds, ProjectReports, SourceText, ValidationError, abandon};
use std::alloc::{AllocError, Global};

/// How many documents were validated again, and how many there are.
#[derive(Clone, Copy, PartialEq, Eq)]
pub struct Repeated {
    pub documents: usize,
    pub all: usize,
}

/// What a run of one project keeps for the next one: the schema, and what is reported of the documents.
#[derive(Drop)]
pub struct Kept {
    /// There is a next run.
    keeps: bool,
    schema: Option<KeptSchema>,
    /// The documents that were last validated against this schema and all could be built.
    project: Option<KeptProject>,
    /// What the run validated again, if that was not all.
    repeated: Option<Repeated>,
}

impl Kept {
    /// Nothing yet, and nothing later, unless there is a next run.
    pub fn new(keeps: bool) -> Kept {
        Kept {
            keeps,
            schema: None,
            project: None,
            repeated: None,
        }
    }

    /// What the run validated again, if that was not all.
    pub fn repeated(&self) -> Option<Repeated> {
        self.repeated
    }

    /// The schema that the last run read from these texts, perhaps as a subgraph. None, if it is to be read.
    pub fn take_schema(&mut self, texts: &[SourceText<'_>], federation: bool) -> Option<Schema>
        ensures { IfSome result IsUsable }
    {
        self.repeated = None;
        if let Some(kept) = self.schema.take() {
            if kept.is_of(texts, federation) {
                return Some(kept.into_schema());
            }
        }
        self.project = None;
        None
    }

    /// Keeps a schema that was read from these texts, if there is a next run.
    pub fn keep_schema(
        &mut self,
        alloc: Global,
        texts: &[SourceText<'_>],
        federation: bool,
        schema: Schema,
    ) -> Result<(), AllocError>
        requires { IsUsable schema }
    {
        if !self.keeps {
            abandon(schema);
            return Ok(());
        }
        self.schema = Some(KeptSchema::of(alloc, texts, federation, schema)?);
        Ok(())
    }

    /// What is to be validated again of a whole project with these texts, of which so many first ones are judged. None, if that is the whole project. The schema is
    /// that which was last taken or read.
    pub fn part<'a>(
        &self,
        alloc: Global,
        read: &[SourceText<'a>],
        judged: usize,
        bounds: Bounds,
    ) -> Result<Option<Part<'a>>, AllocError> {
        match &self.project {
            Some(project) => project.part(alloc, read, judged, bounds),
            None => Ok(None),
        }
    }

    /// What is reported of the whole project, if this is reported of that part, as `check_project` says. None, if the whole project is to be validated.
    pub fn merge(
        &mut self,
        alloc: Global,
        part: &Part<'_>,
        found: ProjectReports,
    ) -> Result<Option<ProjectReports>, ValidationError> {
        let Some(project) = &mut self.project else {
            return Ok(None);
        };
        let merged = project.merge(alloc, part, found)?;
        if merged.is_some() {
            self.repeated = Some(Repeated {
                documents: part.own.len(),
                all: part.all,
            });
        }
        Ok(merged)
    }

    /// Keeps what is reported of a whole project with these texts, if there is a next run, and this can be used then: if each list is about the operations or the
    /// unused fragments of one file. Else what was kept before is kept.
    pub fn keep_reports(
        &mut self,
        alloc: Global,
        read: &[SourceText<'_>],
        judged: usize,
        bounds: Bounds,
        found: ProjectReports,
    ) -> Result<(), AllocError> {
        if !self.keeps {
            return Ok(());
        }
        if let Some(lists) = lists_of(alloc, found)? {
            let before = self.project.take();
            let project = KeptProject::of(alloc, read, judged, bounds, lists, before)?;
            self.project = Some(project);
        }
        Ok(())
    }
}
