//! What codes, severities and frames are called.
ghost use Rattle.std.specs.Prelude.{◌≡◌, IfOk};
ghost use Rattle.std.specs.Str.{chars};
ghost use Rattle.answers_feed.specs.Diagnostics as shown;

use hl_base::{Frame, FrameKind, OutOfMemory, Severity, Text};
use std::alloc::Global;

/// The letter H and the three digits of a number.
fn numbered(alloc: Global, code: u16) -> Result<Text, OutOfMemory>
    ensures { IfOk result (λ text. text ≡ chars (shown.numbered code)) }
{
    let hundreds = code / 100 % 10;
    let tens = code / 10 % 10;
    let ones = code % 10;
    let digits = format!(in alloc; "H{hundreds}{tens}{ones}")?;
    Text::of(alloc, &digits)
}

/// The code of a note; what the author of the text says with MNOTE has no number.
pub(crate) fn code_text(alloc: Global, code: u16) -> Result<Text, OutOfMemory>
    ensures { IfOk result (λ text. text ≡ chars (shown.code_text code)) }
{
    if code == 0 {
        Text::of(alloc, "MNOTE")
    } else {
        numbered(alloc, code)
    }
}

/// The number of a severity (LSP 3.17, `DiagnosticSeverity`).
pub(crate) fn severity_number(severity: Severity) -> u8
    ensures { result ≡ shown.severity_number severity }
{
    match severity {
        Severity::Error => 1,
        Severity::Warning => 2,
        Severity::Information => 3,
    }
}

/// What a frame is of.
fn kind_text(kind: FrameKind) -> &'static str
    ensures { result.now ≡ shown.kind_text kind }
{
    match kind {
        FrameKind::OpenCode => "open code ",
        FrameKind::Macro => "macro ",
        FrameKind::Copy => "copy ",
    }
}

/// A frame in words: `macro NAME` or `copy NAME`.
pub(crate) fn frame_text(alloc: Global, frame: &Frame) -> Result<Text, OutOfMemory>
    ensures { IfOk result (λ text. text ≡ chars (shown.frame_text frame.now)) }
{
    let mut text = Text::of(alloc, kind_text(frame.kind))?;
    match &frame.name {
        Some(name) => {
            text.push_str(name.text())?;
            Ok(text)
        }
        None => Ok(text),
    }
}
