//! The pass from the root down: where a run goes on when the executable at a place is over.

ghost use Rattle.std.specs.Prelude.{◌≡◌, ◌≢◌, ◌<◌, ℕ, true, map, length, Some};
ghost use Rattle.exec_tree.specs.Arena.{to_execs, of_kind, AreShaped, HasArity, IsClosed};
ghost use Rattle.exec_tree.specs.declared.kind.Kind.TheVariants as kinds;
ghost use Rattle.exec_tree.specs.Said.{bare_of};
ghost use Rattle.exec_tree.specs.Exec.{nodes, nodes_all, AreDistinct, has, Plan};
ghost use Rattle.tree_table.specs.Placed.{place_for, placed_down, placed_all};
ghost use Rattle.tree_table.specs.Within.{is_number};
ghost use Rattle.tree_table.specs.Rows.{into_at, link_of, AreLinkedBack};
ghost use Rattle.tree_table.specs.Filled.{first_place, opens_or, inner, with_after, Led, LedAll, IsTold, AreTold, AreToldInOrder};

use crate::nodes::node_at;
use crate::row::{Continuation, Row};
use exec_tree::{Kind, Node};
use nc_base::Number;

/// The executable at this place is opened, where there is one.
fn opens_or(place: Option<u32>, after: Continuation) -> Continuation
    ensures { result ≡ opens_or place after }
{
    match place {
        Some(place) => Continuation::Opens(place),
        None => after,
    }
}

/// The first place of two.
fn first_place(first: Option<u32>, second: Option<u32>) -> Option<u32>
    ensures { result ≡ first_place first second }
{
    match first {
        Some(place) => Some(place),
        None => second,
    }
}

fn is_place(found: Option<u32>, place: u32) -> bool
    ensures { result ≡ is_number found place }
{
    match found {
        Some(other) => other == place,
        None => false,
    }
}

/// Where the run goes on when an element is over, in an executable of a kind that is no workplan.
fn inner(kind: Kind, shared: bool, place: u32, after: Continuation) -> Continuation
    ensures { result ≡ inner kind shared place after }
{
    match kind {
        Kind::Par => if shared {
            Continuation::Joins(place)
        } else {
            after
        },
        Kind::NonSeq => Continuation::PicksOn(place),
        Kind::While => Continuation::TestsAgain(place),
        _ => after,
    }
}

/// Puts a continuation into the row at a place: the place to which opening leads there.
fn put_after(rows: &mut [Row], place: u32, after: Continuation) -> Option<u32>
    requires { place < length rows.old }
    ensures into { result ≡ into_at rows.old place }
    ensures put { rows.new ≡ with_after rows.old place after }
{
    let row = rows[place as usize];
    rows[place as usize] = Row { after, ..row };
    row.into
}

/// Tells the rows of the executable at a place, which goes on at `after`: where opening it leads.
#[cycle(telling)]
pub(crate) fn tell_down(
    arena: &[Node],
    rows: &mut [Row],
    levels: u32,
    place: u32,
    after: Continuation,
) -> Option<u32>
    requires shaped { AreShaped (map bare_of arena.now) }
    requires closed { IsClosed (map bare_of arena.now) 0 (length arena.now) }
    requires room { length rows.old ≡ length arena.now }
    requires distinct { AreDistinct (nodes (placed_down (map bare_of arena.now) levels place)) }
    requires led { Led (map bare_of arena.now) rows.old (placed_down (map bare_of arena.now) levels place) }
    requires back { AreLinkedBack rows.old }
    requires behind { (q : ℕ) → link_of after ≡ Some q → q < place }
    ensures { IsTold rows.old rows.new (placed_down (map bare_of arena.now) levels place) after result }
{
    if levels == 0 {
        return None;
    }
    let Some(node) = node_at(arena, place) else {
        return None;
    };
    tell_kind(
        arena,
        rows,
        levels - 1,
        place,
        node.kind.kind(),
        node.number,
        node.elements.as_slice(),
        after,
    )
}

/// Tells the rows of an executable of a kind.
#[cycle(telling)]
fn tell_kind(
    arena: &[Node],
    rows: &mut [Row],
    levels: u32,
    place: u32,
    kind: Kind,
    number: Option<Number>,
    elements: &[u32],
    after: Continuation,
) -> Option<u32>
    requires shaped { AreShaped (map bare_of arena.now) }
    requires closed { IsClosed (map bare_of arena.now) 0 (length arena.now) }
    requires room { length rows.old ≡ length arena.now }
    requires arity { HasArity kind elements.now }
    requires within { place < length arena.now }
    requires later { (r : ℕ) → has elements.now r ≡ true → place < r }
    requires distinct { AreDistinct (nodes (of_kind kind (place_for kind number place) (placed_all (map bare_of arena.now) levels elements.now))) }
    requires led { Led (map bare_of arena.now) rows.old (of_kind kind (place_for kind number place) (placed_all (map bare_of arena.now) levels elements.now)) }
    requires back { AreLinkedBack rows.old }
    requires behind { (q : ℕ) → link_of after ≡ Some q → q < place }
    ensures { IsTold rows.old rows.new (of_kind kind (place_for kind number place) (placed_all (map bare_of arena.now) levels elements.now)) after result }
{
    match kind {
        Kind::Plan => tell_plan(arena, rows, levels, place, number, elements, after),
        _ => tell_inner(arena, rows, levels, place, kind, elements, after),
    }
}

/// Tells the rows of a workplan. One without a number has no row of its own.
#[cycle(telling)]
fn tell_plan(
    arena: &[Node],
    rows: &mut [Row],
    levels: u32,
    place: u32,
    number: Option<Number>,
    elements: &[u32],
    after: Continuation,
) -> Option<u32>
    requires shaped { AreShaped (map bare_of arena.now) }
    requires closed { IsClosed (map bare_of arena.now) 0 (length arena.now) }
    requires room { length rows.old ≡ length arena.now }
    requires within { place < length arena.now }
    requires later { (r : ℕ) → has elements.now r ≡ true → place < r }
    requires distinct { AreDistinct (nodes (Plan (place_for kinds.Plan number place) (to_execs (placed_all (map bare_of arena.now) levels elements.now)))) }
    requires led { Led (map bare_of arena.now) rows.old (Plan (place_for kinds.Plan number place) (to_execs (placed_all (map bare_of arena.now) levels elements.now))) }
    requires back { AreLinkedBack rows.old }
    requires behind { (q : ℕ) → link_of after ≡ Some q → q < place }
    ensures { IsTold rows.old rows.new (Plan (place_for kinds.Plan number place) (to_execs (placed_all (map bare_of arena.now) levels elements.now))) after result }
{
    match number {
        Some(_) => {
            let into = put_after(rows, place, after);
            let _first = tell_order(arena, rows, levels, elements, after);
            into
        }
        None => tell_order(arena, rows, levels, elements, after),
    }
}

/// Tells the rows of an executable of a kind that is no workplan.
#[cycle(telling)]
fn tell_inner(
    arena: &[Node],
    rows: &mut [Row],
    levels: u32,
    place: u32,
    kind: Kind,
    elements: &[u32],
    after: Continuation,
) -> Option<u32>
    requires shaped { AreShaped (map bare_of arena.now) }
    requires closed { IsClosed (map bare_of arena.now) 0 (length arena.now) }
    requires room { length rows.old ≡ length arena.now }
    requires arity { HasArity kind elements.now }
    requires no_plan { kind ≢ kinds.Plan }
    requires within { place < length arena.now }
    requires later { (r : ℕ) → has elements.now r ≡ true → place < r }
    requires distinct { AreDistinct (nodes (of_kind kind (Some place) (placed_all (map bare_of arena.now) levels elements.now))) }
    requires led { Led (map bare_of arena.now) rows.old (of_kind kind (Some place) (placed_all (map bare_of arena.now) levels elements.now)) }
    requires back { AreLinkedBack rows.old }
    requires behind { (q : ℕ) → link_of after ≡ Some q → q < place }
    ensures { IsTold rows.old rows.new (of_kind kind (Some place) (placed_all (map bare_of arena.now) levels elements.now)) after result }
{
    let into = put_after(rows, place, after);
    let shared = is_place(into, place);
    let of_elements = inner(kind, shared, place, after);
    tell_all(arena, rows, levels, elements, of_elements);
    into
}

/// Tells the rows of elements in order, from the last to the first: each goes on at the first behind it that leads anywhere. Gives the
/// place to which the first of all leads.
#[cycle(telling)]
fn tell_order(
    arena: &[Node],
    rows: &mut [Row],
    levels: u32,
    elements: &[u32],
    after: Continuation,
) -> Option<u32>
    requires shaped { AreShaped (map bare_of arena.now) }
    requires closed { IsClosed (map bare_of arena.now) 0 (length arena.now) }
    requires room { length rows.old ≡ length arena.now }
    requires distinct { AreDistinct (nodes_all (to_execs (placed_all (map bare_of arena.now) levels elements.now))) }
    requires led { LedAll (map bare_of arena.now) rows.old (to_execs (placed_all (map bare_of arena.now) levels elements.now)) }
    requires back { AreLinkedBack rows.old }
    requires behind { (q r : ℕ) → link_of after ≡ Some q → has elements.now r ≡ true → q < r }
    ensures { AreToldInOrder rows.old rows.new (to_execs (placed_all (map bare_of arena.now) levels elements.now)) after result }
{
    let mut first = None;
    for k in (0..elements.len()).rev() {
        let into = tell_down(arena, rows, levels, elements[k], opens_or(first, after));
        first = first_place(into, first);
    }
    first
}

/// Tells the rows of elements that all go on at `after`.
#[cycle(telling)]
fn tell_all(arena: &[Node], rows: &mut [Row], levels: u32, elements: &[u32], after: Continuation)
    requires shaped { AreShaped (map bare_of arena.now) }
    requires closed { IsClosed (map bare_of arena.now) 0 (length arena.now) }
    requires room { length rows.old ≡ length arena.now }
    requires distinct { AreDistinct (nodes_all (to_execs (placed_all (map bare_of arena.now) levels elements.now))) }
    requires led { LedAll (map bare_of arena.now) rows.old (to_execs (placed_all (map bare_of arena.now) levels elements.now)) }
    requires back { AreLinkedBack rows.old }
    requires behind { (q r : ℕ) → link_of after ≡ Some q → has elements.now r ≡ true → q < r }
    ensures { AreTold rows.old rows.new (to_execs (placed_all (map bare_of arena.now) levels elements.now)) after }
{
    for k in (0..elements.len()).rev() {
        tell_down(arena, rows, levels, elements[k], after);
    }
}
