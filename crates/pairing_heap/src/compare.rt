//! Bags compared with no memory.

ghost use Rattle.std.specs.Prelude.{◌≡◌, ◌↔◌, IsTrue};
ghost use Rattle.std.specs.List.{list_all};
ghost use Rattle.pairing_heap.specs.Bag.{bag_of};
ghost use Rattle.pairing_heap.specs.Counts.{holds_value, times_used, is_used_alike};
ghost use Rattle.pairing_heap.specs.Forest.{values_in_use};

use crate::node::Node;

fn has_value(node: &Node, value: i64) -> bool
    ensures { result ≡ holds_value value node.now }
{
    match node {
        Node::Used(tree) => tree.value == value,
        Node::Free { .. } => false,
    }
}

fn count_uses(nodes: &[Node], value: i64) -> usize
    ensures { result ≡ times_used nodes.now value }
{
    nodes.iter().filter(|node| has_value(node, value)).count()
}

fn is_used_alike(nodes: &[Node], others: &[Node], node: &Node) -> bool
    ensures { result ≡ is_used_alike nodes.now others.now node.now }
{
    match node {
        Node::Used(tree) => count_uses(nodes, tree.value) == count_uses(others, tree.value),
        Node::Free { .. } => true,
    }
}

fn are_used_alike(nodes: &[Node], others: &[Node]) -> bool
    ensures { result ≡ list_all (is_used_alike nodes.now others.now) nodes.now }
{
    nodes.iter().all(|node| is_used_alike(nodes, others, node))
}

/// Whether the same values are in use, each as often. Takes time in the square of the nodes'
/// number.
pub(crate) fn same_values(left: &[Node], right: &[Node]) -> bool
    ensures { IsTrue result ↔ (bag_of (values_in_use left.now) ≡ bag_of (values_in_use right.now)) }
{
    are_used_alike(left, right) && are_used_alike(right, left)
}
