//! Trees and faults in letters.
use hl_base::OutOfMemory;
use operand_grammar::{
    Attribute, Comparison, Expr, Item, Operator, Reference, Sign, Symbol, SyntaxFault,
};
use std::alloc::{AllocError, Global};

/// The most bytes of a tree that are written down.
const LONGEST_TREE: usize = 200;

/// A symbol: what is asked of it, its sigil and name, and where it begins.
fn symbol(
    alloc: Global,
    asked: Reference,
    sigil: &str,
    symbol: &Symbol,
) -> Result<String, AllocError> {
    let asked = match asked {
        Reference::Value => "",
        Reference::Of(Attribute::Count) => "K'",
        Reference::Of(Attribute::Number) => "N'",
        Reference::Of(Attribute::Length) => "L'",
        Reference::Of(Attribute::Defined) => "D'",
        Reference::Of(Attribute::Type) => "T'",
    };
    format!(in alloc; "{asked}{sigil}{}@{}", symbol.name.text(), symbol.at)
}

fn mark(operator: Operator) -> &'static str {
    match operator {
        Operator::Add => "+",
        Operator::Subtract => "-",
        Operator::Multiply => "*",
        Operator::Divide => "/",
        Operator::And => "and",
        Operator::Or => "or",
        Operator::Xor => "xor",
    }
}

fn compares(comparison: Comparison) -> &'static str {
    match comparison {
        Comparison::Eq => "eq",
        Comparison::Ne => "ne",
        Comparison::Lt => "lt",
        Comparison::Le => "le",
        Comparison::Gt => "gt",
        Comparison::Ge => "ge",
    }
}

fn sign_mark(sign: Sign) -> &'static str {
    match sign {
        Sign::Plus => "+",
        Sign::Minus => "-",
    }
}

/// A word before two trees.
fn prefix(alloc: Global, word: &str, left: String, right: String) -> Result<String, AllocError> {
    format!(in alloc; "({word} {left} {right})")
}

/// A word between two trees.
fn infix(alloc: Global, left: String, word: &str, right: String) -> Result<String, AllocError> {
    format!(in alloc; "({left} {word} {right})")
}

/// Adds a subscript in brackets.
fn add_subscript(text: &mut String, subscript: &str) -> Result<(), AllocError> {
    text.push_str("[")?;
    text.push_str(subscript)?;
    text.push_str("]")
}

/// A tree, its operators before their operands.
fn shown(alloc: Global, e: &Expr) -> Result<String, AllocError> {
    match e {
        Expr::Number(_, bits) => format!(in alloc; "{bits}"),
        Expr::Here => format!(in alloc; "here"),
        Expr::Symbol(asked, name) => symbol(alloc, *asked, "", name),
        Expr::Variable(asked, name, subscripts) => {
            let mut text = symbol(alloc, *asked, "&", name)?;
            for subscript in subscripts {
                add_subscript(&mut text, shown(alloc, subscript)?.as_str())?;
            }
            Ok(text)
        }
        Expr::Signed(sign, operand) => {
            format!(in alloc; "({} {})", sign_mark(*sign), shown(alloc, operand)?)
        }
        Expr::Pair(operator, left, right) => {
            let (left, right) = (shown(alloc, left)?, shown(alloc, right)?);
            prefix(alloc, mark(*operator), left, right)
        }
        Expr::Paren(inner) => format!(in alloc; "<{}>", shown(alloc, inner)?),
        Expr::Quoted(items) => quoted(alloc, items),
        Expr::Duplicated(factor, text) => {
            infix(alloc, shown(alloc, factor)?, "times", shown(alloc, text)?)
        }
        Expr::Substring(text, start, count) => {
            let (text, start) = (shown(alloc, text)?, shown(alloc, start)?);
            format!(in alloc; "(cut {} {} {})", text, start, shown(alloc, count)?)
        }
        Expr::SubstringToEnd(text, start) => {
            format!(in alloc; "(cut {} {} *)", shown(alloc, text)?, shown(alloc, start)?)
        }
        Expr::Joined(left, right) => infix(alloc, shown(alloc, left)?, ".", shown(alloc, right)?),
        Expr::Not(operand) => format!(in alloc; "(not {})", shown(alloc, operand)?),
        Expr::Compared(comparison, left, right) => {
            let (left, right) = (shown(alloc, left)?, shown(alloc, right)?);
            prefix(alloc, compares(*comparison), left, right)
        }
    }
}

/// The items of a quoted text.
fn quoted(alloc: Global, items: &[Item]) -> Result<String, AllocError> {
    let mut text = String::from_str(alloc, "'")?;
    for item in items {
        text.push_str(shown_item(alloc, item)?.as_str())?;
    }
    text.push_str("'")?;
    Ok(text)
}

/// Plain characters in brackets, or a symbol and how many subscripts it has.
fn shown_item(alloc: Global, item: &Item) -> Result<String, AllocError> {
    match item {
        Item::Plain(text) => format!(in alloc; "[{}]", text.as_str()),
        Item::Inserted(name, subscripts) => {
            let text = symbol(alloc, Reference::Value, "&", name)?;
            format!(in alloc; "{}/{}", text.as_str(), subscripts.len())
        }
    }
}

/// How far some right text begins with what was read, or the place of a fault in a field.
pub fn fault(alloc: Global, fault: SyntaxFault) -> Result<String, OutOfMemory> {
    match fault {
        SyntaxFault::At(count) => Ok(format!(in alloc; "at {count}")?),
        SyntaxFault::OutOfMemory => Err(OutOfMemory),
    }
}

/// The tree, if it is short, or the place of the fault.
pub fn answer(alloc: Global, read: Result<Expr, SyntaxFault>) -> Result<String, OutOfMemory> {
    match read {
        Ok(e) => {
            let tree = shown(alloc, &e)?;
            if tree.len() > LONGEST_TREE {
                return Ok(String::from_str(alloc, "a long tree")?);
            }
            Ok(tree)
        }
        Err(stop) => fault(alloc, stop),
    }
}
