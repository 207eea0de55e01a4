//! Expressions over the variables of a project, as trees.

use nc_base::Number;
use std::boxed::Box;

/// A value in thousandths (ISO 14649-10, expressions over nc_variables; the sum, difference and product are this profile's own).
#[derive(Drop)]
pub enum Expr {
    /// A written number, or a constant's.
    Number(i64),
    /// The variable with this instance number.
    Variable(Number),
    Sum(Box<Expr>, Box<Expr>),
    Difference(Box<Expr>, Box<Expr>),
    Product(Box<Expr>, Box<Expr>),
}

/// How two values are compared.
#[derive(Clone, Copy, Debug, PartialEq, Eq)]
pub enum Relation {
    Equal,
    NotEqual,
    Greater,
    GreaterEqual,
    Less,
    LessEqual,
}

/// A condition (ISO 14649-10, boolean expressions). An AND or OR over a list is written as pairs: its first condition with the rest of the
/// list, and what is left at the list's end is `Constant`, true for AND and false for OR.
#[derive(Drop)]
pub enum Cond {
    Constant(bool),
    Compares(Relation, Expr, Expr),
    And(Box<Cond>, Box<Cond>),
    Or(Box<Cond>, Box<Cond>),
    Xor(Box<Cond>, Box<Cond>),
    Not(Box<Cond>),
}
