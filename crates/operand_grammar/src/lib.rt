//! Operands and expressions, in one place for those who read them.
//!
//! What it passes on: how an operand field falls into operands and a sublist into elements (`operand_list`), and the
//! readers of the four sorts of expressions with their trees (`expression_grammar` for arithmetic and ordinary ones,
//! `character_grammar`, `logical_grammar`), each with the exact place of a fault. It knows nothing of operations, symbols
//! or values, and has no code of its own; what is proved is proved below. It follows the HLASM Language Reference
//! SC26-4940, as these do; the grammar of expressions stands in docs/EXPRESSIONS.md.
#![tactic(auto)]

pub use expression_grammar::{
    Attribute, Comparison, Expr, Form, Grammar, Item, MOST_PARTS, Operator, Reference, Sign,
    Symbol, SyntaxFault, parse_arith, parse_ordinary,
};
pub use logical_grammar;
pub use logical_grammar::character_grammar::parse_char;
pub use logical_grammar::parse_logic;
pub use operand_list::{Operands, hlasm_statements, split_operands, split_sublist};
