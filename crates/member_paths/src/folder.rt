//! Where a folder of the configuration lies.
ghost use Rattle.std.specs.Prelude.{◌≡◌, ◌∷◌, ◌++◌, IfOk};
ghost use Rattle.std.specs.Str.{chars};
ghost use Rattle.member_paths.specs.Paths as paths;

use hl_base::{OutOfMemory, Text};
use std::alloc::Global;

/// The path of a folder that the configuration names: one that does not begin with `/` is taken from the root, and then one
/// `/` at its end is dropped. So `lib//` is `ROOT/lib/`, the empty text the root itself, and `/` the empty path.
pub fn folder_path(alloc: Global, root: &str, written: &str) -> Result<Text, OutOfMemory>
    ensures { IfOk result (λ path. path ≡ paths.folder_path (chars root.now) (chars written.now)) }
{
    if written.starts_with('/') {
        return Text::of(alloc, without_slash(written));
    }
    let whole = below(alloc, root, written)?;
    Text::of(alloc, without_slash(whole.as_str()))
}

/// A path below a folder.
fn below(alloc: Global, folder: &str, path: &str) -> Result<Text, OutOfMemory>
    ensures { IfOk result (λ whole. whole ≡ chars folder.now ++ paths.slash ∷ chars path.now) }
{
    let mut whole = Text::of(alloc, folder)?;
    whole.push_str("/")?;
    whole.push_str(path)?;
    Ok(whole)
}

/// A path without the `/` at its end, if it has one.
fn without_slash(path: &str) -> &str
    ensures { chars result.now ≡ paths.without_slash (chars path.now) }
{
    match path.strip_suffix('/') {
        Some(front) => front,
        None => path,
    }
}
