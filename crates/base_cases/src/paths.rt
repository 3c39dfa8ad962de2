//! Paths, the URIs that name them, and their parts.
use file_uri::{UriFault, file_path, uri_of};
use hl_base::OutOfMemory;
use member_paths::{file_name_of, folder_of, folder_path};
use std::alloc::Global;

/// The path that a URI names, or that it names none.
pub fn path_of(alloc: Global, uri: &str) -> Result<String, OutOfMemory> {
    match file_path(alloc, uri) {
        Ok(path) => Ok(String::from_str(alloc, path.as_str())?),
        Err(UriFault::BadUri) => Ok(String::from_str(alloc, "no file URI")?),
        Err(UriFault::OutOfMemory) => Err(OutOfMemory),
    }
}

/// The URI of a path.
pub fn uri(alloc: Global, path: &str) -> Result<String, OutOfMemory> {
    Ok(String::from_str(alloc, uri_of(alloc, path)?.as_str())?)
}

/// The folder and the name of the file of a path, each in brackets.
pub fn parts(alloc: Global, path: &str) -> Result<String, OutOfMemory> {
    Ok(format!(in alloc; "[{}] [{}]", folder_of(path), file_name_of(path))?)
}

/// The path of a folder that is written so, below a root.
pub fn folder(alloc: Global, root: &str, written: &str) -> Result<String, OutOfMemory> {
    let path = folder_path(alloc, root, written)?;
    Ok(String::from_str(alloc, path.as_str())?)
}
