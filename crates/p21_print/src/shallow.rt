//! Whether an exchange is no deeper than a file may be. Printing goes down into parameters, so one that was made by hand and is deeper is
//! found before: each look stops where a file's limit is passed, so it takes no more stack than a file does.

ghost use Rattle.std.specs.Prelude.{◌↔◌, ◌≤◌, suc, map, IsTrue};
ghost use Rattle.std.specs.List.{AllByRecursion};
ghost use Rattle.p21_parse.specs.declared.limits.TheConstants.{MAX_NESTING};
ghost use Rattle.p21_parse.specs.Nesting.{nesting, nestings, part_nesting, instance_nesting, exchange_nesting};
ghost use Rattle.p21_parse.specs.View.{tree_of, trees_of, part_of, instance_of, exchange_of};

use p21_parse::{Exchange, Instance, MAX_NESTING, Param, ParamList, Part};

/// Whether at most `most` parentheses lie in one another in a parameter.
#[cycle(shallow)]
fn is_shallow(param: &Param, most: u32) -> bool
    ensures { IsTrue result ↔ (nesting (tree_of param.now) ≤ most) }
{
    match param {
        Param::List(params) => list_is_shallow(params, most),
        Param::Typed(_, params) => list_is_shallow(params, most),
        Param::Int(_) => true,
        Param::Real(_) => true,
        Param::Text(_) => true,
        Param::Enumeration(_) => true,
        Param::Reference(_) => true,
        Param::Binary(_) => true,
        Param::Unset => true,
        Param::Derived => true,
    }
}

/// The same of a list, whose own parentheses count.
#[cycle(shallow)]
fn list_is_shallow(params: &ParamList, most: u32) -> bool
    ensures { IsTrue result ↔ (suc (nestings (trees_of params.now)) ≤ most) }
{
    if most == 0 {
        return false;
    }
    are_shallow(params.as_slice(), most - 1)
}

/// The same of each of these parameters.
#[cycle(shallow)]
fn are_shallow(params: &[Param], most: u32) -> bool
    ensures { IsTrue result ↔ AllByRecursion (λ t. nesting t ≤ most) (map tree_of params.now) }
{
    for param in params {
        if !is_shallow(param, most) {
            return false;
        }
    }
    true
}

/// Whether each of these parts is no deeper than those of a file.
fn parts_are_shallow(parts: &[Part]) -> bool
    ensures { IsTrue result ↔ AllByRecursion (λ p. part_nesting p ≤ MAX_NESTING) (map part_of parts.now) }
{
    for part in parts {
        if !list_is_shallow(&part.parameters, MAX_NESTING) {
            return false;
        }
    }
    true
}

/// Whether an instance is no deeper than those of a file.
fn instance_is_shallow(instance: &Instance) -> bool
    ensures { IsTrue result ↔ (instance_nesting (instance_of instance.now) ≤ MAX_NESTING) }
{
    parts_are_shallow(instance.parts.as_slice())
}

/// Whether each of these instances is no deeper than those of a file.
fn instances_are_shallow(instances: &[Instance]) -> bool
    ensures { IsTrue result ↔ AllByRecursion (λ i. instance_nesting i ≤ MAX_NESTING) (map instance_of instances.now) }
{
    for instance in instances {
        if !instance_is_shallow(instance) {
            return false;
        }
    }
    true
}

/// Whether an exchange is no deeper than a file may be.
pub fn exchange_is_shallow(x: &Exchange) -> bool
    ensures { IsTrue result ↔ (exchange_nesting (exchange_of x.now) ≤ MAX_NESTING) }
{
    parts_are_shallow(x.head.as_slice()) && instances_are_shallow(x.items.as_slice())
}
