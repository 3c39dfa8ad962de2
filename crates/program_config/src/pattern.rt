//! Patterns of paths.
ghost use Rattle.std.specs.Prelude.{◌≡◌, option_map};
ghost use Rattle.program_config.specs.Patterns.{behind_run, matches, walked};

/// What stands for any run of bytes without a slash.
const STAR: u8 = b'*';

/// Whether a pattern matches a whole path. It goes over the path once for each part of the pattern between stars: where a
/// part stands first, the rest of the pattern matches if it does anywhere.
pub fn matches(pattern: &[u8], path: &[u8]) -> bool
    ensures { result ≡ matches pattern.now path.now }
{
    match behind_part(pattern, path) {
        Some(Some((signs, bytes))) => matches_behind_run(signs, bytes),
        Some(None) => true,
        None => false,
    }
}

/// What is left of a pattern and a path behind a star of the pattern, where the path begins with what stands before it; no
/// more where there is no star and the path is what the pattern says.
fn behind_part<'p, 'c>(pattern: &'p [u8], path: &'c [u8]) -> Option<Option<(&'p [u8], &'c [u8])>>
    ensures { option_map (option_map (λ left. (left.0.now, left.1.now))) result
        ≡ walked pattern.now path.now }
{
    let mut pattern = pattern;
    let mut path = path;
    while let Some((sign, signs)) = pattern.split_first() {
        if *sign == STAR {
            return Some(Some((signs, path)));
        }
        match path.split_first() {
            Some((byte, bytes)) if *byte == *sign => {
                pattern = signs;
                path = bytes;
            }
            _ => return None,
        }
    }
    if path.is_empty() { Some(None) } else { None }
}

/// Whether a pattern matches what stands in a path behind a run of bytes without a slash.
fn matches_behind_run(pattern: &[u8], path: &[u8]) -> bool
    ensures { result ≡ behind_run (matches pattern.now) path.now }
{
    let mut pattern = pattern;
    let mut path = path;
    loop {
        match behind_part(pattern, path) {
            Some(left) => match left {
                Some((signs, bytes)) => {
                    pattern = signs;
                    path = bytes;
                }
                None => return true,
            },
            None => match path.split_first() {
                Some((byte, bytes)) => {
                    if *byte == b'/' {
                        return false;
                    }
                    path = bytes;
                }
                None => return false,
            },
        }
    }
}
