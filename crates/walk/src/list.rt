// All edges of a plan, put into a slice by from, to and distance: three numbers an edge.
ghost use Rattle.std.specs.Prelude.{◌+◌, ◌≤◌, ◌<◌, ◌≡◌, false, length};
ghost use Rattle.finite.specs.Lists.{collect};
ghost use Rattle.finite.specs.Put.{Put, Added, RoomAt};
ghost use Rattle.edges.specs.Tests.{distance};
ghost use Rattle.plan.specs.Sizes.{max_items, edge_words};
ghost use Rattle.plan.specs.Layout.{body_of};
ghost use Rattle.graph.specs.Answers.{three};
ghost use Rattle.walk.specs.Listing.{row_of, numbers_from};

use crate::rows::mark_row;
use graph::items::Items;
use plan::state::MAX_ITEMS;

// 0 to a later item, else 1: one expression in the type that a list of edges has.
fn distance_of(a: usize, b: usize) -> u32
    ensures { result ≡ distance a b }
{
    u32::from(b <= a)
}

// Puts the edge from a to b from an offset on, and answers the offset behind it.
fn put_edge(edges: &mut [u32], at: usize, a: usize, b: usize) -> usize
    requires { RoomAt (three (a, b, distance a b)) at edges.old × (a < max_items) × (b < max_items) }
    ensures { Added (three (a, b, distance a b)) at edges.old result edges.new }
{
    edges[at] = a as u32;
    edges[at + 1] = b as u32;
    edges[at + 2] = distance_of(a, b);
    at + 3
}

// Puts the edges from item a to the items that are marked. Inlined, its loop took twice the time
// where one of its jumps came to end a line of 32 bytes of code.
#[inline(never)]
fn put_row(edges: &mut [u32], at: usize, marks: &[u8; MAX_ITEMS], n: usize, a: usize) -> usize
    requires { RoomAt (row_of marks.now n a) at edges.old × (n ≤ max_items) × (a < max_items) }
    ensures { Added (row_of marks.now n a) at edges.old result edges.new }
{
    let mut end = at;
    for b in 0..n {
        if marks[b] == 1 {
            end = put_edge(edges, end, a, b);
        }
    }
    end
}

// Puts the edges from item a.
fn put_from(items: &Items, a: usize, edges: &mut [u32], at: usize) -> usize
    requires { (a < length items.now.codes.now) × RoomAt (numbers_from (body_of items.now.plan.now) a) at edges.old }
    ensures { Added (numbers_from (body_of items.now.plan.now) a) at edges.old result edges.new }
{
    let mut marks = [0u8; MAX_ITEMS];
    mark_row(items, a, false, &mut marks);
    put_row(edges, at, &marks, items.codes.len(), a)
}

// Puts all edges; answers how many numbers they are.
pub fn put_edges(items: &Items, edges: &mut [u32]) -> usize
    requires { edge_words ≤ length edges.old }
    ensures { Put (collect (length items.now.codes.now) (numbers_from (body_of items.now.plan.now))) edges.old result edges.new }
{
    let mut at = 0;
    for a in 0..items.codes.len() {
        at = put_from(items, a, edges, at);
    }
    at
}
