//! The two parts of a path.
ghost use Rattle.std.specs.Prelude.{◌≡◌};
ghost use Rattle.std.specs.Str.{chars};
ghost use Rattle.member_paths.specs.Paths as paths;

/// The folder of a file: what stands before the last `/` of its path; empty where there is none.
pub fn folder_of(path: &str) -> &str
    ensures { chars result.now ≡ paths.folder_of (chars path.now) }
{
    match path.rsplit_once('/') {
        Some((folder, _)) => folder,
        None => "",
    }
}

/// The name of a file: what stands behind the last `/` of its path; the whole path where there is none.
pub fn file_name_of(path: &str) -> &str
    ensures { chars result.now ≡ paths.file_name_of (chars path.now) }
{
    match path.rsplit_once('/') {
        Some((_, name)) => name,
        None => path,
    }
}
