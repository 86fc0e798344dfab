//! The files below folders.

use crate::plain::joined;
use std::alloc::AllocError;
use std::fs::DirEntry;
use std::rt::Files;
use std::{fs, io};

/// A folder that could not be read, and why.
#[derive(Drop)]
pub struct UnreadFolder {
    pub path: String,
    pub error: io::Error,
}

/// The paths of the files below a folder, whose own path is plain, in order of their bytes. Links are not followed. Names that begin with a
/// `.`, and folders named `node_modules`, are left out. A folder that cannot be read is added to those that were not. The only error is a
/// failed allocation.
pub(crate) fn files_below<R: Files + AllocGlobal + Clone + Drop>(
    rt: &R,
    folder: &str,
    unread: &mut Vec<UnreadFolder>,
) -> Result<Vec<String>, AllocError> {
    let alloc = rt.alloc();
    let mut files = Vec::new(alloc);
    let mut folders = Vec::new(alloc);
    folders.push(String::from_str(alloc, folder)?)?;
    for _ in 0..u64::MAX {
        let Some(folder) = folders.pop() else {
            break;
        };
        read_folder(rt, folder, &mut files, &mut folders, unread)?;
    }
    files.sort()?;
    Ok(files)
}

/// Adds the files of a folder, and the folders in it; or the folder itself, if it cannot be read.
fn read_folder<R: Files + AllocGlobal + Clone + Drop>(
    rt: &R,
    folder: String,
    files: &mut Vec<String>,
    folders: &mut Vec<String>,
    unread: &mut Vec<UnreadFolder>,
) -> Result<(), AllocError> {
    match add_entries(rt, folder.as_str(), files, folders) {
        Ok(()) => Ok(()),
        Err(error) => {
            if error.kind() == io::ErrorKind::OutOfMemory {
                return Err(AllocError);
            }
            unread.push(UnreadFolder {
                path: folder,
                error,
            })?;
            Ok(())
        }
    }
}

fn add_entries<R: Files + AllocGlobal + Clone + Drop>(
    rt: &R,
    folder: &str,
    files: &mut Vec<String>,
    folders: &mut Vec<String>,
) -> io::Result<()> {
    for entry in fs::read_dir(rt, folder)? {
        add_entry(rt, folder, &entry?, files, folders)?;
    }
    Ok(())
}

fn add_entry<R: Files + AllocGlobal + Clone + Drop>(
    rt: &R,
    folder: &str,
    entry: &DirEntry<R, R::A>,
    files: &mut Vec<String>,
    folders: &mut Vec<String>,
) -> io::Result<()> {
    let name = entry.file_name();
    if is_left_out(name) {
        return Ok(());
    }
    let path = joined(rt.alloc(), folder, name)?;
    let kind = entry.file_type()?;
    if kind.is_dir() {
        folders.push(path)?;
    } else if kind.is_file() {
        files.push(path)?;
    }
    Ok(())
}

/// Whether what has this name is left out of a folder.
fn is_left_out(name: &str) -> bool {
    name.starts_with('.') || name == "node_modules"
}
