//! What a class is in an expression.

ghost use Rattle.std.specs.Prelude.{◌≡◌};
ghost use Rattle.exec_tree.specs.Classes.{value_kind, test_kind};

use entity_types::Class;
use nc_expr::Relation;

/// What a class is among values.
#[derive(Clone, Copy)]
pub enum ValueKind {
    Variable,
    Constant,
    Sum,
    Difference,
    Product,
    Other,
}

/// What a class is among conditions.
#[derive(Clone, Copy)]
pub enum TestKind {
    Compares(Relation),
    All,
    Some,
    Either,
    Not,
    Other,
}

pub(crate) fn value_kind(class: Class) -> ValueKind
    ensures { result ≡ value_kind class }
{
    match class {
        Class::NcVariable => ValueKind::Variable,
        Class::NcConstant => ValueKind::Constant,
        Class::NcSum => ValueKind::Sum,
        Class::NcDifference => ValueKind::Difference,
        Class::NcProduct => ValueKind::Product,
        _ => ValueKind::Other,
    }
}

pub(crate) fn test_kind(class: Class) -> TestKind
    ensures { result ≡ test_kind class }
{
    match class {
        Class::ComparisonEqual => TestKind::Compares(Relation::Equal),
        Class::ComparisonNotEqual => TestKind::Compares(Relation::NotEqual),
        Class::ComparisonGreater => TestKind::Compares(Relation::Greater),
        Class::ComparisonGreaterEqual => TestKind::Compares(Relation::GreaterEqual),
        Class::ComparisonLess => TestKind::Compares(Relation::Less),
        Class::ComparisonLessEqual => TestKind::Compares(Relation::LessEqual),
        Class::AndExpression => TestKind::All,
        Class::OrExpression => TestKind::Some,
        Class::XorExpression => TestKind::Either,
        Class::NotExpression => TestKind::Not,
        _ => TestKind::Other,
    }
}
