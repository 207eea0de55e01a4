//! The three workplans and their elements.

ghost use Rattle.std.specs.Prelude.{◌≡◌, ◌≤◌, [], ◌∷◌, ◌++◌, IfOk, OnOk};
ghost use Rattle.big_case.specs.Project.{steps_of, step_number, first_elements, second_elements, third_elements, behind_first, workplan, workplans};
ghost use Rattle.big_case.specs.Adds.{Adds};

use crate::params::{put, references, text};
use nc_base::{NoMemory, Number, NumberList};
use p21_parse::{InstanceList, Param, ParamList};
use std::alloc::Global;

/// How many workingsteps a case may have.
pub const MAX_STEPS: u32 = 1_000;

/// The number of the workingstep at an index, counted from 0.
pub fn step_number(i: u32) -> Number
    requires { i ≤ MAX_STEPS }
    ensures { result ≡ step_number i }
{
    1_000 + 20 * i
}

/// Puts the workingsteps of a workplan behind others: those whose index leaves this remainder by 3.
fn put_steps(elements: &mut NumberList, remainder: u32, steps: u32) -> Result<(), NoMemory>
    requires { steps ≤ MAX_STEPS }
    ensures { OnOk result (elements.new ≡ elements.old ++ steps_of remainder steps) }
{
    for i in 0..steps {
        if i % 3 == remainder {
            elements.push(step_number(i))?;
        }
    }
    Ok(())
}

/// The elements of the first workplan, of which the second is a mark.
fn first_elements(alloc: Global, steps: u32) -> Result<NumberList, NoMemory>
    requires { steps ≤ MAX_STEPS }
    ensures { IfOk result (λ elements. elements ≡ first_elements steps) }
{
    let mut own = NumberList::new(alloc);
    put_steps(&mut own, 0, steps)?;
    marked(alloc, own.as_slice())
}

/// The numbers, with the first mark behind the first of them.
fn marked(alloc: Global, numbers: &[Number]) -> Result<NumberList, NoMemory>
    ensures { IfOk result (λ elements. elements ≡ behind_first 10 numbers.now) }
{
    let mut elements = NumberList::new(alloc);
    let [first, others @ ..] = numbers else {
        elements.push(10)?;
        return Ok(elements);
    };
    elements.push(*first)?;
    elements.push(10)?;
    for number in others {
        elements.push(*number)?;
    }
    Ok(elements)
}

/// The elements of the second workplan, between a wait and a mark.
fn second_elements(alloc: Global, steps: u32) -> Result<NumberList, NoMemory>
    requires { steps ≤ MAX_STEPS }
    ensures { IfOk result (λ elements. elements ≡ second_elements steps) }
{
    let mut elements = NumberList::new(alloc);
    elements.push(12)?;
    put_steps(&mut elements, 1, steps)?;
    elements.push(11)?;
    Ok(elements)
}

/// The elements of the third workplan, before a wait.
fn third_elements(alloc: Global, steps: u32) -> Result<NumberList, NoMemory>
    requires { steps ≤ MAX_STEPS }
    ensures { IfOk result (λ elements. elements ≡ third_elements steps) }
{
    let mut elements = NumberList::new(alloc);
    put_steps(&mut elements, 2, steps)?;
    elements.push(13)?;
    Ok(elements)
}

/// Puts a workplan in its channel.
fn put_workplan(
    alloc: Global,
    items: &mut InstanceList,
    n: Number,
    elements: &[Number],
    channel: Number,
) -> Result<(), NoMemory>
    ensures { OnOk result (Adds (workplan n elements.now channel ∷ []) items.old items.new) }
{
    let mut params = ParamList::with_capacity(alloc, 3)?;
    params.push(text(alloc, b"w")?)?;
    params.push(references(alloc, elements)?)?;
    params.push(Param::Reference(channel))?;
    put(alloc, items, n, b"WORKPLAN", params)
}

/// Puts the three workplans.
pub fn put_workplans(alloc: Global, items: &mut InstanceList, steps: u32) -> Result<(), NoMemory>
    requires { steps ≤ MAX_STEPS }
    ensures { OnOk result (Adds (workplans steps) items.old items.new) }
{
    let first = first_elements(alloc, steps)?;
    put_workplan(alloc, items, 7, first.as_slice(), 1)?;
    let second = second_elements(alloc, steps)?;
    put_workplan(alloc, items, 8, second.as_slice(), 2)?;
    let third = third_elements(alloc, steps)?;
    put_workplan(alloc, items, 9, third.as_slice(), 3)?;
    Ok(())
}
