//! Copies of plain values.
use hl_base::{
    Answer, Declaration, Declarations, Key, Line, Name, OutOfMemory, SetKind, SetValue, Text,
};
use std::alloc::{AllocError, Global};

/// The copy of the value of a SET symbol.
fn value(alloc: Global, text: Text) -> Result<String, OutOfMemory> {
    match SetValue::C(text).copy(alloc)? {
        SetValue::C(copy) => Ok(String::from_str(alloc, copy.as_str())?),
        _ => Ok(String::new(alloc)),
    }
}

/// The copy of an answer.
fn answer(alloc: Global, text: Text) -> Result<String, OutOfMemory> {
    match Answer::Chars(text).copy(alloc)? {
        Answer::Chars(copy) => Ok(String::from_str(alloc, copy.as_str())?),
        _ => Ok(String::new(alloc)),
    }
}

/// The copy of the key of element 7 of a global SETB symbol.
fn key(alloc: Global, name: Name) -> Result<String, AllocError> {
    match Key::Global(SetKind::B, name, 7).copy() {
        Key::Global(kind, copy, element) => {
            format!(in alloc; "{kind:?} {} {element}", copy.text())
        }
        _ => Ok(String::new(alloc)),
    }
}

/// The copy of the declaration of a global SETA symbol, alone in its list.
fn declarations(alloc: Global, name: Name) -> Result<Declarations, OutOfMemory> {
    let mut declarations = Declarations::new(alloc);
    declarations.push(Declaration {
        kind: SetKind::A,
        name,
        global: true,
        array: false,
    })?;
    declarations.copy(alloc)
}

/// Declarations, with semicolons behind them.
fn declared(alloc: Global, declarations: &Declarations) -> Result<String, OutOfMemory> {
    let mut shown = String::new(alloc);
    for declaration in declarations.as_slice() {
        let (kind, name) = (declaration.kind, declaration.name.text());
        let (global, array) = (declaration.global, declaration.array);
        let line = format!(in alloc; "{kind:?} {name} {global} {array};")?;
        shown.push_str(line.as_str())?;
    }
    Ok(shown)
}

/// The copy of a statement of this operation, with the label `L` and the operand `F'1'`.
fn line(alloc: Global, op: Text) -> Result<String, OutOfMemory> {
    let line = Line {
        label: Text::of(alloc, "L")?,
        op,
        operands: Text::of(alloc, "F'1'")?,
    };
    let copy = line.copy(alloc)?;
    let (label, op, operands) = (
        copy.label.as_str(),
        copy.op.as_str(),
        copy.operands.as_str(),
    );
    Ok(format!(in alloc; "[{label}] [{op}] [{operands}]")?)
}

/// The copy of a value of this kind that is made of a name.
fn of_name(alloc: Global, kind: &str, name: Name) -> Result<String, OutOfMemory> {
    match kind {
        "key" => Ok(key(alloc, name)?),
        _ => declared(alloc, &declarations(alloc, name)?),
    }
}

/// The copy of a value of this kind that is made of a text.
pub fn copied(alloc: Global, kind: &str, text: &str) -> Result<String, OutOfMemory> {
    match (kind, Name::read(text)) {
        ("value", _) => value(alloc, Text::of(alloc, text)?),
        ("answer", _) => answer(alloc, Text::of(alloc, text)?),
        ("line", _) => line(alloc, Text::of(alloc, text)?),
        (_, Some(name)) => of_name(alloc, kind, name),
        _ => Ok(String::from_str(alloc, "no name")?),
    }
}
