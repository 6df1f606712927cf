// All edges of a plan, behind the door by the plan.
ghost use Rattle.std.specs.Prelude.{◌≤◌, length};
ghost use Rattle.plan.specs.Sizes.{edge_words};
ghost use Rattle.calls.specs.Drawn.{Drawn};

use graph::items::Items;
use walk::list::put_edges;

// Puts all edges in order into the list, three numbers an edge; answers how many edges they are.
pub fn list_edges(items: &Items, list: &mut [u32]) -> usize
    requires { edge_words ≤ length list.old }
    ensures { Drawn items.now.plan.now list.old result list.new }
{
    put_edges(items, list) / 3
}
