//! Names in texts.
ghost use Rattle.std.specs.Prelude.{◌≡◌};
ghost use Rattle.std.specs.Str.{chars};
ghost use Rattle.macro_binding.specs.Prototypes as prototypes;

use hl_base::Name;

/// The name that a text is.
pub fn name_of(text: &str) -> Option<Name>
    ensures { result ≡ prototypes.name_of (chars text.now) }
{
    Name::read(text)
}
