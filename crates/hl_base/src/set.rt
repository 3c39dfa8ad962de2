//! SET symbols, what conditional assembly asks of its surroundings, and what it is answered
//! (HLASM Language Reference SC26-4940, "Conditional assembly language").
ghost use Rattle.std.specs.Prelude.{◌≡◌, List, [], ◌∷◌, ◌++◌, IfOk, OnOk, OnErr};

use crate::{Name, OutOfMemory, PathId, Text, TextId};
use std::alloc::Global;
use std::marker::Model;

/// The three types of SET symbols: arithmetic, boolean and character.
#[derive(Clone, Copy, Debug, PartialEq, Eq)]
pub enum SetKind {
    A,
    B,
    C,
}

/// The value of a SET symbol or of an expression of conditional assembly.
#[derive(Drop)]
pub enum SetValue {
    A(i32),
    B(bool),
    C(Text),
}

impl SetValue {
    /// Another value that is the same.
    pub fn copy(&self, alloc: Global) -> Result<SetValue, OutOfMemory>
        ensures { IfOk result (λ v. v ≡ self.now) }
    {
        match self {
            SetValue::A(number) => Ok(SetValue::A(*number)),
            SetValue::B(bit) => Ok(SetValue::B(*bit)),
            SetValue::C(text) => Ok(SetValue::C(text.copy(alloc)?)),
        }
    }
}

/// What a label means to attribute references: its type letter, an ASCII character, and its length in bytes.
#[derive(Clone, Copy, Debug, PartialEq, Eq)]
pub struct Attr {
    pub letter: u8,
    pub length: u32,
}

/// What conditional assembly may ask of what surrounds it. A global SET symbol has element 0 where it has no
/// subscript.
#[derive(Drop)]
pub enum Key {
    Global(SetKind, Name, u32),
    Op(Name),
    Member(Name),
    Sym(Name),
    Look(Name),
    Sect,
    Nest,
    Parm,
    Counter,
}

impl Key {
    /// The same key once more. It takes no memory.
    pub fn copy(&self) -> Key
        ensures { result ≡ self.now }
    {
        match self {
            Key::Global(kind, name, element) => Key::Global(*kind, name.copy(), *element),
            Key::Op(name) => Key::Op(name.copy()),
            Key::Member(name) => Key::Member(name.copy()),
            Key::Sym(name) => Key::Sym(name.copy()),
            Key::Look(name) => Key::Look(name.copy()),
            Key::Sect => Key::Sect,
            Key::Nest => Key::Nest,
            Key::Parm => Key::Parm,
            Key::Counter => Key::Counter,
        }
    }
}

/// What may be answered to a key. `Defined` tells that an operation has a definition.
#[derive(Drop)]
pub enum Answer {
    Nothing,
    Number(i32),
    Bit(bool),
    Chars(Text),
    Defined,
    File(PathId, TextId),
    Unreadable,
    Meaning(Attr),
}

impl Answer {
    /// Another answer that says the same.
    pub fn copy(&self, alloc: Global) -> Result<Answer, OutOfMemory>
        ensures { IfOk result (λ a. a ≡ self.now) }
    {
        match self {
            Answer::Nothing => Ok(Answer::Nothing),
            Answer::Number(number) => Ok(Answer::Number(*number)),
            Answer::Bit(bit) => Ok(Answer::Bit(*bit)),
            Answer::Chars(text) => Ok(Answer::Chars(text.copy(alloc)?)),
            Answer::Defined => Ok(Answer::Defined),
            Answer::File(path, text) => Ok(Answer::File(*path, *text)),
            Answer::Unreadable => Ok(Answer::Unreadable),
            Answer::Meaning(attr) => Ok(Answer::Meaning(*attr)),
        }
    }
}

/// A SET symbol that a statement declares; `array` says whether with a subscript.
#[derive(Drop)]
pub struct Declaration {
    pub kind: SetKind,
    pub name: Name,
    pub global: bool,
    pub array: bool,
}

impl Declaration {
    /// The same declaration once more. It takes no memory.
    pub fn copy(&self) -> Declaration
        ensures { result ≡ self.now }
    {
        Declaration {
            kind: self.kind,
            name: self.name.copy(),
            global: self.global,
            array: self.array,
        }
    }
}

/// Declarations in order. Contracts see the list.
#[derive(Drop)]
pub struct Declarations {
    declarations: Vec<Declaration>,
}

impl Model for Declarations {
    ghost use Rattle.std.specs.Prelude.{List};
    ghost use Rattle.hl_base.specs.declared.set.Declaration.{Declaration};

    ghost Value = { List Declaration };

    ghost view = { λ s. s.declarations.items };
}

impl Declarations {
    /// No declaration.
    pub fn new(alloc: Global) -> Declarations
        ensures { result ≡ [] }
    {
        Declarations {
            declarations: Vec::new(alloc),
        }
    }

    /// Adds a declaration behind those that are there. An `Err` changes nothing.
    pub fn push(&mut self, declaration: Declaration) -> Result<(), OutOfMemory>
        ensures ok { OnOk result (self.new ≡ self.old ++ declaration ∷ []) }
        ensures err { OnErr result (self.new ≡ self.old) }
    {
        self.declarations.push(declaration)?;
        Ok(())
    }

    /// The declarations in order.
    pub fn as_slice(&self) -> &[Declaration]
        ensures { result.now ≡ self.now }
    {
        self.declarations.as_slice()
    }

    /// Another list of the same declarations.
    pub fn copy(&self, alloc: Global) -> Result<Declarations, OutOfMemory>
        ensures { IfOk result (λ s. s ≡ self.now) }
    {
        let mut declarations = Vec::with_capacity(alloc, self.declarations.len())?;
        for declaration in &self.declarations {
            declarations.push(declaration.copy())?;
        }
        Ok(Declarations { declarations })
    }
}

/// A generated statement as text.
#[derive(Drop)]
pub struct Line {
    pub label: Text,
    pub op: Text,
    pub operands: Text,
}

impl Line {
    /// Another line of the same texts.
    pub fn copy(&self, alloc: Global) -> Result<Line, OutOfMemory>
        ensures { IfOk result (λ l. l ≡ self.now) }
    {
        Ok(Line {
            label: self.label.copy(alloc)?,
            op: self.op.copy(alloc)?,
            operands: self.operands.copy(alloc)?,
        })
    }
}
