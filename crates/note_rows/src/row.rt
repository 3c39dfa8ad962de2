//! The kinds of notes.

use hl_base::{Name, Severity, Text};

/// One row of the table of notes, with what is inserted into its text: a name without `&` or `.`, an operation as it is
/// written, a number. Each is documented by the code under which it is published.
#[derive(Drop)]
pub enum Row {
    /// H001
    MarginText,
    /// H002
    SurplusLines,
    /// H003
    MissingEnd,
    /// H004
    NoOperation,
    /// H005
    MissingLine,
    /// H006
    OpenApostrophe,
    /// H010: how many characters can be read.
    Unreadable(u32),
    /// H020
    NoValue(Name),
    /// H021
    OtherType(Name),
    /// H022
    BadSubscript(Name),
    /// H023
    Overflow,
    /// H024: a symbol as it is written.
    NoLength(Text),
    /// H025
    DeclaredTwice(Name),
    /// H026
    NoNumber(Name),
    /// H027
    OutsideText,
    /// H028
    TextTooLong,
    /// H030
    NoSequenceSymbol(Name),
    /// H031
    BranchLimit,
    /// H032
    NoRecord,
    /// H040: an operation as it is written.
    UndefinedOperation(Text),
    /// H041: an operation as it is written.
    LeftOutOperation(Text),
    /// H042
    MissingMend,
    /// H043
    BadPrototype,
    /// H044: the operation.
    OutsideMacro(Name),
    /// H045
    KeywordTwice(Name),
    /// H046
    NestedTooDeep,
    /// H047
    AbsentMember(Name),
    /// H048
    RecursiveMember(Name),
    /// H049
    UnreadableMember(Name),
    /// H050: the operation of the prototype.
    DefinitionTooLong(Name),
    /// H060
    BadConstant,
    /// H061
    FloatingPoint,
    /// H062
    BadNominalValue,
    /// H063
    ValueTooLong,
    /// H064
    UnknownValue,
    /// H065
    OutsideSection,
    /// H066
    SectionTooLong,
    /// H070
    DefinedTwice(Name),
    /// H071
    UndefinedSymbol(Name),
    /// H072
    NotSimple,
    /// H073
    EquWithoutValue(Name),
    /// H074
    MisplacedQualifier(Name),
    /// H080
    WrongOperandCount,
    /// H081: a register that is not one of 16, or a mask.
    BadRegister,
    /// H081: a register that is not one of 32.
    BadVectorRegister,
    /// H082
    BadImmediate,
    /// H083
    NoUsingRange,
    /// H084
    BadDisplacement,
    /// H085
    BadLength,
    /// H086
    OddTarget,
    /// H087
    BadUsing,
    /// H088: the register.
    UnusedRegister(u32),
    /// H089
    UnusedQualifier(Name),
    /// H090
    BudgetUsedUp,
    /// What the author of the text says with MNOTE. It has no code.
    Author(Severity, Text),
}
