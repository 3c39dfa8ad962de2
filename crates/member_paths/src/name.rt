//! The member that a file is.
ghost use Rattle.std.specs.Prelude.{◌≡◌};
ghost use Rattle.std.specs.List.{before_first};
ghost use Rattle.std.specs.Str.{chars};
ghost use Rattle.member_paths.specs.Paths as paths;

use hl_base::Name;

/// The name of the member that a file of this name is, as `MAC` for `mac.hlasm`; none where what stands before the first
/// period is no ordinary symbol. It takes no memory.
pub fn member_name(file_name: &str) -> Option<Name>
    ensures { result ≡ paths.member_name (chars file_name.now) }
{
    Name::read(before_period(file_name))
}

/// What stands before the first period of a text; all where there is none.
fn before_period(text: &str) -> &str
    ensures { chars result.now ≡ before_first paths.is_period (chars text.now) }
{
    match text.split_once('.') {
        Some((front, _)) => front,
        None => text,
    }
}
