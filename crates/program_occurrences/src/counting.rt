//! Counts of characters.
ghost use Rattle.std.specs.Prelude.{◌≡◌, ◌+◌, length, IfOk};
ghost use Rattle.std.specs.Str.{chars};

use hl_base::OutOfMemory;
use hlasm_statements::text::character_count;

/// How many characters a text has, in 32 bits. `OutOfMemory` where they do not hold it.
pub(crate) fn short_count(text: &str) -> Result<u32, OutOfMemory>
    ensures { IfOk result (λ n. n ≡ length (chars text.now)) }
{
    let count = u32::try_from(character_count(text)).map_err(|_| OutOfMemory)?;
    Ok(count)
}

/// The place one further behind so many characters that begin at a place. `OutOfMemory` where 32 bits do not hold it.
pub(crate) fn place_behind(at: u32, count: u32) -> Result<u32, OutOfMemory>
    ensures { IfOk result (λ next. next ≡ at + (count + 1)) }
{
    let next = u64::from(at) + (u64::from(count) + 1);
    match u32::try_from(next) {
        Ok(next) => Ok(next),
        Err(_) => Err(OutOfMemory),
    }
}
