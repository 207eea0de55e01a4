//! Values and conditions, worked out by hand.

use crate::expect::expect;
use nc_base::NoMemory;
use nc_expr::{Cond, Expr, Relation, Vars, test, value};
use std::alloc::Global;
use std::boxed::Box;
use std::process::Abort;
use std::test::Fail;

/// What is done with two numbers.
#[derive(Clone, Copy)]
enum Operation {
    Sum,
    Difference,
    Product,
}

use Operation::{Difference, Product, Sum};

/// The greatest value.
const MOST: i64 = 1_000_000_000_000_000;

/// Two numbers, what is done with them, and the value. A product is divided by 1,000 and truncated towards zero; no value is past `MOST`.
const VALUES: &[(i64, Operation, i64, i64)] = &[
    (1_500, Sum, 2_250, 3_750),
    (1_500, Difference, 2_250, -750),
    (1_500, Product, 2_250, 3_375),
    (1, Product, 999, 0),
    (-1, Product, 999, 0),
    (-3, Product, 999, -2),
    (3, Product, -999, -2),
    (-3, Product, -999, 2),
    (MOST, Sum, 0, MOST),
    (MOST, Sum, 1, MOST),
    (MOST - 1, Sum, 1, MOST),
    (-MOST, Difference, 1, -MOST),
    (-MOST, Sum, -MOST, -MOST),
    (MOST, Product, MOST, MOST),
    (MOST, Product, -MOST, -MOST),
    (MOST, Product, 1_000, MOST),
    (MOST, Product, 1_001, MOST),
    (MOST, Product, 999, 999_000_000_000_000),
    (i64::MAX, Product, i64::MIN, -MOST),
];

fn expression(alloc: Global, a: i64, operation: Operation, b: i64) -> Result<Expr, NoMemory> {
    let first = Box::new(alloc, Expr::Number(a))?;
    let second = Box::new(alloc, Expr::Number(b))?;
    Ok(match operation {
        Sum => Expr::Sum(first, second),
        Difference => Expr::Difference(first, second),
        Product => Expr::Product(first, second),
    })
}

fn expect_value(
    rt: &impl Abort,
    alloc: Global,
    row: &(i64, Operation, i64, i64),
) -> Result<(), NoMemory> {
    let (a, operation, b, want) = *row;
    let e = expression(alloc, a, operation, b)?;
    let vars = Vars::new(alloc, &[])?;
    expect(rt, value(&e, &vars), want);
    Ok(())
}

#[test]
fn values_are_clamped_and_products_truncated(rt: HostRuntime) -> Result<(), Fail> {
    for row in VALUES {
        expect_value(&rt, rt.alloc(), row)?;
    }
    Ok(())
}

/// A relation, and whether 1 to 2, 2 to 2 and 3 to 2 are in it.
const RELATIONS: &[(Relation, [bool; 3])] = &[
    (Relation::Equal, [false, true, false]),
    (Relation::NotEqual, [true, false, true]),
    (Relation::Greater, [false, false, true]),
    (Relation::GreaterEqual, [false, true, true]),
    (Relation::Less, [true, false, false]),
    (Relation::LessEqual, [true, true, false]),
];

fn expect_relation(rt: &impl Abort, vars: &Vars, relation: Relation, x: i64, want: bool) {
    let condition = Cond::Compares(relation, Expr::Number(x), Expr::Number(2));
    expect(rt, test(&condition, vars), want);
}

#[test]
fn values_compare(rt: HostRuntime) -> Result<(), Fail> {
    let vars = Vars::new(rt.alloc(), &[])?;
    for (relation, wants) in RELATIONS {
        expect_relation(&rt, &vars, *relation, 1, wants[0]);
        expect_relation(&rt, &vars, *relation, 2, wants[1]);
        expect_relation(&rt, &vars, *relation, 3, wants[2]);
    }
    Ok(())
}

/// How two conditions are joined.
#[derive(Clone, Copy)]
enum Join {
    And,
    Or,
    Xor,
}

/// Two conditions, how they are joined, and whether that holds.
const JOINS: &[(bool, Join, bool, bool)] = &[
    (false, Join::And, false, false),
    (false, Join::And, true, false),
    (true, Join::And, false, false),
    (true, Join::And, true, true),
    (false, Join::Or, false, false),
    (false, Join::Or, true, true),
    (true, Join::Or, false, true),
    (true, Join::Or, true, true),
    (false, Join::Xor, false, false),
    (false, Join::Xor, true, true),
    (true, Join::Xor, false, true),
    (true, Join::Xor, true, false),
];

fn joined(alloc: Global, a: bool, join: Join, b: bool) -> Result<Cond, NoMemory> {
    let first = Box::new(alloc, Cond::Constant(a))?;
    let second = Box::new(alloc, Cond::Constant(b))?;
    Ok(match join {
        Join::And => Cond::And(first, second),
        Join::Or => Cond::Or(first, second),
        Join::Xor => Cond::Xor(first, second),
    })
}

fn expect_joined(
    rt: &impl Abort,
    alloc: Global,
    vars: &Vars,
    row: &(bool, Join, bool, bool),
) -> Result<(), NoMemory> {
    let condition = joined(alloc, row.0, row.1, row.2)?;
    expect(rt, test(&condition, vars), row.3);
    Ok(())
}

#[test]
fn conditions_join(rt: HostRuntime) -> Result<(), Fail> {
    let vars = Vars::new(rt.alloc(), &[])?;
    for row in JOINS {
        expect_joined(&rt, rt.alloc(), &vars, row)?;
    }
    Ok(())
}

#[test]
fn a_condition_is_turned_round(rt: HostRuntime) -> Result<(), Fail> {
    let vars = Vars::new(rt.alloc(), &[])?;
    for answer in [false, true] {
        let condition = Cond::Not(Box::new(rt.alloc(), Cond::Constant(answer))?);
        expect(&rt, test(&condition, &vars), !answer);
    }
    Ok(())
}

fn expect_variables(rt: &impl Abort, vars: &Vars, wants: [i64; 3]) {
    expect(rt, value(&Expr::Variable(7), vars), wants[0]);
    expect(rt, value(&Expr::Variable(9), vars), wants[1]);
    expect(rt, value(&Expr::Variable(8), vars), wants[2]);
}

/// The later of two pairs of one number stands; what isn't there counts as 0.
#[test]
fn variables_have_their_values(rt: HostRuntime) -> Result<(), Fail> {
    let vars = Vars::new(rt.alloc(), &[(9, 1), (7, 5), (9, -2)])?;
    expect_variables(&rt, &vars, [5, -2, 0]);
    Ok(())
}

#[test]
fn a_variable_is_set(rt: HostRuntime) -> Result<(), Fail> {
    let mut vars = Vars::new(rt.alloc(), &[(9, 1), (7, 5)])?;
    vars.set(7, 6);
    expect_variables(&rt, &vars, [6, 1, 0]);
    Ok(())
}
