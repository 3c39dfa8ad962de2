//! Numbers of characters.
ghost use Rattle.std.specs.Prelude.{◌≡◌, ◌+◌, IfOk};

use hl_base::OutOfMemory;

/// So many characters, and more.
pub(crate) fn sum(count: u32, more: usize) -> Result<u32, OutOfMemory>
    ensures { IfOk result (λ all. all ≡ count + more) }
{
    match u32::try_from(more) {
        Ok(more) => count.checked_add(more).ok_or(OutOfMemory),
        Err(_) => Err(OutOfMemory),
    }
}
