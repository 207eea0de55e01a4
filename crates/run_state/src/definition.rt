//! The definition of a workingstep as it is now.

ghost use Rattle.std.specs.Prelude.{◌≡◌, true};
ghost use Rattle.std.specs.Result.{result_ok};
ghost use Rattle.project_store.specs.Entities.{entity_at};
ghost use Rattle.step_def.specs.Condition.{is_workingstep};
ghost use Rattle.step_def.specs.DefOf.{def_of};

use nc_base::{Number, Steps};
use path_blocks::Def;
use project_store::Store;
use std::marker::Brand;
use std::sync::ledger::{Blank, Ledger};
use step_def::resolve;

/// The definition, by a counter of its own: this look counts for no judgement.
fn counted<L: Ledger>(store: &Store, n: Number, blank: Blank) -> Option<Def>
    requires name { blank.name ≡ L.name }
    requires parts { blank.parts ≡ L.parts }
    requires one { blank.parts ≡ 1 }
    requires workingstep { is_workingstep (entity_at store.now) n ≡ true }
    ensures { result ≡ result_ok (def_of (entity_at store.now) n) }
{
    let (book, share) = blank.open::<L>();
    let mut counter = Steps::new(book, share);
    resolve(store, n, &mut counter).ok()
}

/// The definition of workingstep `n` in the store, where it has one.
pub fn definition_in(store: &Store, n: Number) -> Option<Def>
    requires { is_workingstep (entity_at store.now) n ≡ true }
    ensures { result ≡ result_ok (def_of (entity_at store.now) n) }
{
    counted::<Brand>(store, n, Blank::new(1))
}
