//! The exchange of the project.

ghost use Rattle.std.specs.Prelude.{◌≡◌, ◌*◌, ◌≤◌, map, IfOk, OnOk};
ghost use Rattle.std.specs.List.{flat_map, range_with_len};
ghost use Rattle.p21_parse.specs.View.{instance_of, exchange_of};
ghost use Rattle.p21_parse.specs.Allowed.{IsAllowed};
ghost use Rattle.p21_parse.specs.Spelled.{IsSpelled};
ghost use Rattle.big_case.specs.Draws.{state_after};
ghost use Rattle.big_case.specs.Project.{instances_at, project_items, project};
ghost use Rattle.big_case.specs.declared.workplans.TheConstants.{MAX_STEPS};
ghost use Rattle.big_case.specs.Adds.{Adds};

use crate::draws::Draws;
use crate::front::put_front;
use crate::steps::put_step;
use crate::workplans::{MAX_STEPS, step_number};
use nc_base::NoMemory;
use p21_parse::{BuildErr, Exchange, InstanceList};
use std::alloc::Global;

/// Puts the instances of all workingsteps, each as it is drawn.
fn put_steps(
    alloc: Global,
    items: &mut InstanceList,
    draws: &mut Draws,
    steps: u32,
) -> Result<(), NoMemory>
    requires { steps ≤ MAX_STEPS }
    ensures items { OnOk result (Adds (flat_map (instances_at draws.old.state) (range_with_len 0 steps)) items.old items.new) }
    ensures draws { OnOk result (draws.new.state ≡ state_after draws.old.state (4 * steps)) }
{
    for i in 0..steps {
        let step = draws.step();
        put_step(alloc, items, step, step_number(i))?;
    }
    Ok(())
}

/// The instances of the project.
fn project_items(alloc: Global, draws: &mut Draws, steps: u32) -> Result<InstanceList, NoMemory>
    requires { steps ≤ MAX_STEPS }
    ensures items { IfOk result (λ items. map instance_of items ≡ project_items steps draws.old.state) }
    ensures draws { OnOk result (draws.new.state ≡ state_after draws.old.state (4 * steps)) }
{
    let mut items = InstanceList::new(alloc);
    put_front(alloc, &mut items, steps)?;
    put_steps(alloc, &mut items, draws, steps)?;
    Ok(items)
}

/// The project of so many workingsteps.
pub fn project(alloc: Global, draws: &mut Draws, steps: u32) -> Result<Exchange, NoMemory>
    requires { steps ≤ MAX_STEPS }
    ensures project { IfOk result (λ x. exchange_of x ≡ project steps draws.old.state) }
    ensures valid { IfOk result (λ x. IsAllowed (exchange_of x) × IsSpelled (exchange_of x)) }
    ensures draws { OnOk result (draws.new.state ≡ state_after draws.old.state (4 * steps)) }
{
    let items = project_items(alloc, draws, steps)?;
    match Exchange::of(alloc, items) {
        Ok(exchange) => Ok(exchange),
        Err(BuildErr::NoMemory) => Err(NoMemory),
        Err(BuildErr::Invalid(_)) => unreachable!(),
    }
}
