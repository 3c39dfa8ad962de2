//! Fields, and which of them are cut by their bytes alone.
ghost use Rattle.std.specs.Prelude.{◌≡◌, ◌<◌, ◌≤◌, [], take, drop, true, length, IfOk};
ghost use Rattle.std.specs.List.{list_all, prefix_len};
ghost use Rattle.std.specs.Str.{chars, IsAscii};
ghost use Rattle.operand_list.specs.Split.{operands_of};
ghost use Rattle.plain_fields.specs.Cutting.{is_no_comma, is_plain};

use crate::state::Cutting;
use hl_base::OutOfMemory;
use operand_list::{Operands, split_operands};
use std::alloc::Global;

/// How many bytes stand before the first apostrophe, or at all.
fn count_plain(bytes: &[u8]) -> usize
    ensures { result ≡ prefix_len is_plain bytes.now }
{
    bytes.iter().take_while(|byte| **byte != b'\'').count()
}

/// Where the first apostrophe stands, or the end.
#[tactic(auto, using(crate::proofs::CuttingLaws::first_within, crate::proofs::CuttingLaws::first_plain))]
fn plain_end(bytes: &[u8]) -> usize
    ensures within { result ≤ length bytes.now }
    ensures plain { list_all is_plain (take result bytes.now) ≡ true }
{
    count_plain(bytes)
}

/// Whether no comma stands among these bytes.
fn are_single(bytes: &[u8]) -> bool
    ensures { result ≡ list_all is_no_comma bytes.now }
{
    bytes.iter().all(|byte| *byte != b',')
}

/// The operands of a field that has some, in which no apostrophe stands before so many bytes, and no comma behind them.
fn split_plain(alloc: Global, field: &str, end: usize) -> Result<Operands, OutOfMemory>
    requires some { 0 < length field.now }
    requires ascii { IsAscii field.now }
    requires within { end ≤ length field.now }
    requires plain { list_all is_plain (take end field.now) ≡ true }
    requires single { list_all is_no_comma (drop end field.now) ≡ true }
    ensures { IfOk result (λ s. s ≡ operands_of (chars field.now)) }
{
    let mut cutting = Cutting::new(alloc, field);
    for byte in &field.as_bytes()[..end] {
        cutting.read(alloc, *byte)?;
    }
    cutting.close(alloc)
}

/// The operands of a field: what stands between its commas outside quotes and parentheses. The empty text has none, and
/// an operand may be empty (SC26-4940, "Operand entry").
pub fn split_field(alloc: Global, field: &str) -> Result<Operands, OutOfMemory>
    ensures { IfOk result (λ s. s ≡ operands_of (chars field.now)) }
{
    let end = plain_end(field.as_bytes());
    if !field.is_empty() && field.is_ascii() && are_single(&field.as_bytes()[end..]) {
        return split_plain(alloc, field, end);
    }
    split_operands(alloc, field)
}
