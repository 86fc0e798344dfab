//! The files of a run, as they were when the program looked at them.

use gqlvalidate_inputs::word_paths::views;
use gqlvalidate_paths::{PathError, expand};
use gqlvalidate_settings::{ProjectSettings, Settings, SettingsFault};
use std::alloc::{AllocError, Global};
use std::collections::BTreeMap;
use std::fs;
use std::rt::Files;
use std::time::SystemTime;

/// What tells two versions of a file apart.
#[derive(Clone, Copy, PartialEq, Eq)]
struct Version {
    modified: SystemTime,
    length: u64,
}

/// The files of a run, by their paths, each as it was. A file that could not be looked at has no version.
#[derive(Drop)]
pub struct Snapshot {
    files: BTreeMap<String, Option<Version>>,
}

impl Snapshot {
    /// A snapshot without files.
    pub fn new(alloc: Global) -> Snapshot {
        Snapshot {
            files: BTreeMap::new(alloc),
        }
    }

    /// Adds the files that these words name, as they are now. Words that cannot be expanded name none.
    pub fn add_words<R: Files + AllocGlobal + Clone + Drop>(
        &mut self,
        rt: &R,
        words: &[&str],
    ) -> Result<(), AllocError> {
        match expand(rt, words) {
            Ok(expansion) => {
                for file in expansion.files {
                    self.add(rt, file)?;
                }
                Ok(())
            }
            Err(PathError::OutOfMemory) => Err(AllocError),
            Err(_) => Ok(()),
        }
    }

    /// Adds the file of these settings, and the files that they name.
    pub fn add_settings<R: Files + AllocGlobal + Clone + Drop>(
        &mut self,
        rt: &R,
        settings: &Settings,
    ) -> Result<(), AllocError> {
        self.add_path(rt, settings.file.as_str())?;
        for project in &settings.projects {
            self.add_project(rt, project)?;
        }
        Ok(())
    }

    fn add_project<R: Files + AllocGlobal + Clone + Drop>(
        &mut self,
        rt: &R,
        project: &ProjectSettings,
    ) -> Result<(), AllocError> {
        self.add_all(rt, &project.schema)?;
        self.add_all(rt, &project.documents)?;
        self.add_all(rt, &project.fragments)
    }

    fn add_all<R: Files + AllocGlobal + Clone + Drop>(
        &mut self,
        rt: &R,
        words: &[String],
    ) -> Result<(), AllocError> {
        let words = views(rt.alloc(), words)?;
        self.add_words(rt, &words)
    }

    /// Adds the file of a configuration that cannot be read.
    pub fn add_fault<R: Files + AllocGlobal>(
        &mut self,
        rt: &R,
        fault: &SettingsFault,
    ) -> Result<(), AllocError> {
        match fault {
            SettingsFault::OutOfMemory => Err(AllocError),
            SettingsFault::Unread { file, .. } | SettingsFault::Wrong { file, .. } => {
                self.add_path(rt, file.as_str())
            }
        }
    }

    /// Adds the file with this path.
    pub fn add_path<R: Files + AllocGlobal>(
        &mut self,
        rt: &R,
        path: &str,
    ) -> Result<(), AllocError> {
        let path = String::from_str(rt.alloc(), path)?;
        self.add(rt, path)
    }

    fn add<R: Files + AllocGlobal>(&mut self, rt: &R, path: String) -> Result<(), AllocError> {
        let version = version_of(rt, path.as_str());
        self.files.insert(path, version)?;
        Ok(())
    }

    /// The first path, in the order of bytes, at which the other one has another version, or no file.
    pub fn first_difference<'a>(&'a self, other: &Snapshot) -> Option<&'a str> {
        self.files
            .iter()
            .find(|(path, version)| other.files.get(path.as_str()) != Some(*version))
            .map(|(path, _)| path.as_str())
    }
}

/// The version of a file, if the program can look at it.
fn version_of<R: Files>(rt: &R, path: &str) -> Option<Version> {
    let metadata = fs::metadata(rt, path).ok()?;
    let modified = metadata.modified().ok()?;
    Some(Version {
        modified,
        length: metadata.len(),
    })
}
