//! Values and conditions, worked out.

ghost use Rattle.std.specs.Prelude.{◌≡◌, pos, ◌*ℤ◌, int_div};
ghost use Rattle.nc_expr.specs.Term.{term_of, test_of};
ghost use Rattle.nc_expr.specs.Value.{clamp, product_of, value_of, compares, differ, holds};
ghost use Rattle.nc_expr.specs.Vars.{value_at};

use crate::expr::{Cond, Expr, Relation};
use crate::vars::Vars;
use nc_base::MAX_THOUSANDTHS;

fn clamp(x: i128) -> i64
    ensures { result ≡ clamp x }
{
    if x > i128::from(MAX_THOUSANDTHS) {
        MAX_THOUSANDTHS as i64
    } else if x < -i128::from(MAX_THOUSANDTHS) {
        -(MAX_THOUSANDTHS as i64)
    } else {
        x as i64
    }
}

fn times(a: i64, b: i64) -> i128
    ensures { result ≡ a *ℤ b }
{
    i128::from(a) * i128::from(b)
}

fn in_thousandths(x: i128) -> i128
    ensures { result ≡ int_div x (pos 1000) }
{
    x / 1000
}

// Exact in 128 bits: neither factor is past 64 bits.
fn product(a: i64, b: i64) -> i64
    ensures { result ≡ clamp (product_of a b) }
{
    clamp(in_thousandths(times(a, b)))
}

/// The value of an expression in thousandths. A sum, a difference and a product are each the nearest number that is at most
/// `nc_base::MAX_THOUSANDTHS` in size; a product is the exact one, truncated towards zero. A variable that `vars` doesn't have counts as 0.
/// It takes no memory; calls lie as deep in each other as the expression's operators, in a tree of a store at most `MAX_EXPRESSION_NODES`.
pub fn value(e: &Expr, vars: &Vars) -> i64
    ensures { result ≡ value_of (value_at vars.now) (term_of e.now) }
{
    match e {
        Expr::Number(x) => *x,
        Expr::Variable(n) => vars.value(*n),
        Expr::Sum(a, b) => clamp(i128::from(value(a, vars)) + i128::from(value(b, vars))),
        Expr::Difference(a, b) => clamp(i128::from(value(a, vars)) - i128::from(value(b, vars))),
        Expr::Product(a, b) => product(value(a, vars), value(b, vars)),
    }
}

fn compare(relation: Relation, a: i64, b: i64) -> bool
    ensures { result ≡ compares relation a b }
{
    match relation {
        Relation::Equal => a == b,
        Relation::NotEqual => a != b,
        Relation::Greater => a > b,
        Relation::GreaterEqual => a >= b,
        Relation::Less => a < b,
        Relation::LessEqual => a <= b,
    }
}

fn differ(a: bool, b: bool) -> bool
    ensures { result ≡ differ a b }
{
    if a { !b } else { b }
}

/// Whether a condition holds. A variable that `vars` doesn't have counts as 0. It takes no memory; calls lie as deep in each other as the
/// condition's trees: in a tree of a store at most one call for each node and one for each element of a list of AND or OR, so at most twice
/// `MAX_EXPRESSION_NODES`.
pub fn test(c: &Cond, vars: &Vars) -> bool
    ensures { result ≡ holds (value_at vars.now) (test_of c.now) }
{
    match c {
        Cond::Constant(answer) => *answer,
        Cond::Compares(relation, a, b) => compare(*relation, value(a, vars), value(b, vars)),
        Cond::And(a, b) => test(a, vars) && test(b, vars),
        Cond::Or(a, b) => test(a, vars) || test(b, vars),
        Cond::Xor(a, b) => differ(test(a, vars), test(b, vars)),
        Cond::Not(a) => !test(a, vars),
    }
}
