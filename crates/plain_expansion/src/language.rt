//! A macro language, as the laws see it.
ghost use Rattle.plain_expansion.specs.Language.{Language};

/// A type that stands for a language.
pub trait MacroLanguage {
    /// What it is.
    ghost language: { Language };
}
