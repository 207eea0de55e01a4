//! The values of variables.

ghost use Rattle.std.specs.Prelude.{◌≡◌, ◌==◌, ℕ, if◌then◌else◌, Some, IsSome, IfOk, OnOk};
ghost use Rattle.std.specs.Ordering.{nat_cmp};
ghost use Rattle.std.specs.BTreeMap.{get};
ghost use Rattle.nc_expr.specs.Vars.{value_of_variable, last_value, value_at};

use nc_base::{NoMemory, Number};
use std::alloc::Global;
use std::collections::BTreeMap;
use std::marker::Model;

/// The values of variables in thousandths, by the number of the variable's instance. Contracts see the pairs of number and value
/// in order of number.
/// The map is ordered, so that no choice of numbers makes a look-up dear.
#[derive(Drop)]
pub struct Vars {
    values: BTreeMap<Number, i64>,
}

impl Model for Vars {
    ghost use Rattle.std.specs.Prelude.{ℕ, ℤ, List};

    ghost Value = { List (ℕ × ℤ) };

    ghost view = { λ v. v.values.entries };
}

fn put(values: &mut BTreeMap<Number, i64>, pair: &(Number, i64)) -> Result<(), NoMemory>
    ensures { OnOk result ((m : ℕ) → get nat_cmp values.new m ≡ (if pair.now.0 == m then Some pair.now.1 else get nat_cmp values.old m)) }
{
    values.insert(pair.0, pair.1)?;
    Ok(())
}

impl Vars {
    /// The variables of these pairs of number and value. Of two pairs of one number the later stands.
    pub fn new(alloc: Global, opening: &[(Number, i64)]) -> Result<Vars, NoMemory>
        ensures { IfOk result (λ vars. (n : ℕ) → value_of_variable vars n ≡ last_value opening.now n) }
    {
        let mut values = BTreeMap::new(alloc);
        for pair in opening {
            put(&mut values, pair)?;
        }
        Ok(Vars { values })
    }

    /// The value of variable `n`, or 0 where there is none.
    pub fn value(&self, n: Number) -> i64
        ensures { result ≡ value_at self.now n }
    {
        match self.values.get(&n) {
            Some(x) => *x,
            None => 0,
        }
    }

    /// Gives variable `n`, which is there, the value `x`. It takes no memory.
    pub fn set(&mut self, n: Number, x: i64)
        requires { IsSome (value_of_variable self.old n) }
        ensures { (m : ℕ) → value_of_variable self.new m ≡ (if n == m then Some x else value_of_variable self.old m) }
    {
        match self.values.insert(n, x) {
            Ok(_) => {}
            Err(_) => unreachable!(),
        }
    }
}
