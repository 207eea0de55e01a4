//! The pass from the leaves up: where opening the executable at a place leads.

ghost use Rattle.std.specs.Prelude.{◌≡◌, ◌<◌, ◌+◌, ◌-◌, ◌^◌, map, length, IfSome};
ghost use Rattle.exec_tree.specs.Arena.{to_execs, of_kind, AreShaped, HasArity};
ghost use Rattle.exec_tree.specs.Said.{bare_of};
ghost use Rattle.exec_tree.specs.Exec.{nodes, nodes_all, AreDistinct};
ghost use Rattle.tree_table.specs.Placed.{place_for, placed_down, placed_all};
ghost use Rattle.tree_table.specs.Filled.{first_place, one_for, into_by, with_row, IsMade, AreMade};

use crate::nodes::{node_at, place_for};
use crate::row::{Continuation, Row};
use exec_tree::{Kind, Node};
use nc_base::Number;

/// Of elements: the place to which the first leads that leads anywhere, and how many do.
#[derive(Clone, Copy)]
struct Leads {
    first: Option<u32>,
    number: usize,
}

/// The same with one more element before them.
fn with_element(leads: Leads, into: Option<u32>) -> Leads
    requires { leads.number < 2 ^ 64 - 1 }
    ensures first { result.first ≡ first_place into leads.first }
    ensures number { result.number ≡ one_for into + leads.number }
{
    match into {
        Some(place) => Leads {
            first: Some(place),
            number: 1 + leads.number,
        },
        None => leads,
    }
}

/// The place to which opening a node leads.
fn into_by(kind: Kind, place: u32, count: usize, leads: Leads) -> Option<u32>
    ensures { result ≡ into_by kind place count leads.first leads.number }
{
    match kind {
        Kind::Plan => leads.first,
        Kind::Par => if leads.number < 2 {
            leads.first
        } else {
            Some(place)
        },
        Kind::NonSeq => if count == 0 { None } else { Some(place) },
        _ => Some(place),
    }
}

fn put_row(rows: &mut [Row], place: Option<u32>, row: Row)
    requires { IfSome place (λ p. p < length rows.old) }
    ensures { rows.new ≡ with_row place row rows.old }
{
    if let Some(p) = place {
        rows[p as usize] = row;
    }
}

/// Makes the rows of the executable at a place, at most so many levels down: where opening it leads.
#[cycle(leading)]
pub(crate) fn lead_down(arena: &[Node], rows: &mut [Row], levels: u32, place: u32) -> Option<u32>
    requires shaped { AreShaped (map bare_of arena.now) }
    requires room { length rows.old ≡ length arena.now }
    requires distinct { AreDistinct (nodes (placed_down (map bare_of arena.now) levels place)) }
    ensures { IsMade (map bare_of arena.now) rows.old rows.new (placed_down (map bare_of arena.now) levels place) result }
{
    if levels == 0 {
        return None;
    }
    let Some(node) = node_at(arena, place) else {
        return None;
    };
    lead_kind(
        arena,
        rows,
        levels,
        place,
        node.kind.kind(),
        node.number,
        node.elements.as_slice(),
    )
}

/// Makes the rows of an executable of a kind.
#[cycle(leading)]
fn lead_kind(
    arena: &[Node],
    rows: &mut [Row],
    levels: u32,
    place: u32,
    kind: Kind,
    number: Option<Number>,
    elements: &[u32],
) -> Option<u32>
    requires shaped { AreShaped (map bare_of arena.now) }
    requires room { length rows.old ≡ length arena.now }
    requires some { 0 < levels }
    requires arity { HasArity kind elements.now }
    requires within { place < length arena.now }
    requires there { placed_down (map bare_of arena.now) levels place ≡ of_kind kind (place_for kind number place) (placed_all (map bare_of arena.now) (levels - 1) elements.now) }
    requires distinct { AreDistinct (nodes (of_kind kind (place_for kind number place) (placed_all (map bare_of arena.now) (levels - 1) elements.now))) }
    ensures { IsMade (map bare_of arena.now) rows.old rows.new (of_kind kind (place_for kind number place) (placed_all (map bare_of arena.now) (levels - 1) elements.now)) result }
{
    let leads = lead_all(arena, rows, levels - 1, elements);
    let into = into_by(kind, place, elements.len(), leads);
    let row = Row {
        into,
        after: Continuation::Done,
        levels,
    };
    put_row(rows, place_for(kind, number, place), row);
    into
}

/// Makes the rows of elements, from the last to the first.
#[cycle(leading)]
fn lead_all(arena: &[Node], rows: &mut [Row], levels: u32, elements: &[u32]) -> Leads
    requires shaped { AreShaped (map bare_of arena.now) }
    requires room { length rows.old ≡ length arena.now }
    requires distinct { AreDistinct (nodes_all (to_execs (placed_all (map bare_of arena.now) levels elements.now))) }
    ensures { AreMade (map bare_of arena.now) rows.old rows.new (to_execs (placed_all (map bare_of arena.now) levels elements.now)) result.first result.number }
{
    let mut leads = Leads {
        first: None,
        number: 0,
    };
    for k in (0..elements.len()).rev() {
        let into = lead_down(arena, rows, levels, elements[k]);
        leads = with_element(leads, into);
    }
    leads
}
