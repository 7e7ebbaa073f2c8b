// Decision diagrams in a lent list of records.
#![tactic(auto)]

ghost use Rattle.std.specs.Prelude.{◌≡◌, ◌≢◌, ◌+◌, ◌-◌, ◌≤◌, ◌<◌, length, replicate, set};
ghost use Rattle.diagrams.specs.Making.{Joined, Laid, no_id};
ghost use Rattle.nodes.specs.Nodes.{id_of, Real, SoughtId};
ghost use Rattle.records.specs.Records.{none, node_of, nodes_in};

use nodes::{NONE, Node, next_of, start_of, stops};

// Reads the record of an id; the constants have the lowest level that there is.
#[tactic(auto, unfolding(crate::specs::Records::node_of))]
pub fn node_of(nodes: &[Node], f: u32) -> Node
    requires { f < length nodes.now + 2 }
    ensures { result ≡ node_of nodes.now f }
{
    if f < 2 {
        return Node {
            level: NONE,
            low: 0,
            high: 0,
        };
    }
    nodes[f as usize - 2]
}

// Stores the record of an id.
pub fn put_node(nodes: &mut [Node], f: u32, node: Node)
    requires { (2 ≤ f) × (f < length nodes.old + 2) }
    ensures { nodes.new ≡ set nodes.old (f - 2) node }
{
    nodes[f as usize - 2] = node;
}

// The id of a record, or one where it may be put, from its home on round the first `room` records; none where there is neither.
pub fn seek(nodes: &[Node], room: u32, level: u32, low: u32, high: u32) -> Option<u32>
    requires { Laid room (nodes_in nodes.now) × ((0 < level) × ((room ≤ length nodes.now) × (room + 2 < no_id))) }
    ensures { SoughtId room (nodes_in nodes.now) level low high result }
{
    let mut id = start_of(room, level, low, high);
    for _ in 0..room {
        if stops(node_of(nodes, id), level, low, high) {
            return Some(id);
        }
        id = next_of(room, id);
    }
    None
}

// The id of a level and two branches: where these are equal that branch, else the record of the three, which is added where there is none. None where
// the high branch is none, which is the number of no id, or where there is no room.
pub fn join(nodes: &mut [Node], room: u32, level: u32, low: u32, high: u32) -> Option<u32>
    requires { (high ≢ no_id → Laid room (nodes_in nodes.old)) × ((0 < level) × ((room ≤ length nodes.old) × (room + 2 < no_id))) }
    ensures is { Joined room (nodes_in nodes.old) (nodes_in nodes.new) level low high (id_of result) }
    ensures real { Real result }
{
    if high == NONE {
        return None;
    }
    if low == high {
        return Some(high);
    }
    let id = seek(nodes, room, level, low, high)?;
    put_node(nodes, id, Node { level, low, high });
    Some(id)
}

// Empties the list.
pub fn clear(nodes: &mut [Node])
    ensures { nodes.new ≡ replicate (length nodes.old) none }
{
    nodes.fill(Node {
        level: 0,
        low: 0,
        high: 0,
    });
}
