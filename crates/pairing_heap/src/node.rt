//! The nodes of a heap, which are in one vector and name one another by their places in it.

ghost use Rattle.std.specs.Prelude.{◌≡◌, ℕ, Option, Some, IfSome, IfOk, OnErr, slice_get};
ghost use Rattle.model.specs.Objects.{with_value};
ghost use Rattle.pairing_heap.specs.Bag.{bag_of};
ghost use Rattle.pairing_heap.specs.Forest.{HasTree, IsUsed, IsFree, values_in_use};
ghost use Rattle.pairing_heap.specs.Heap.{IsSound, IsApart};
ghost use Rattle.pairing_heap.specs.declared.node.Node.TheVariants.{Free};

use std::alloc::AllocError;

/// The place of a node.
pub type Link = Option<usize>;

#[derive(Clone, Copy)]
pub enum Node {
    Used(Tree),
    /// A node to be used again, and the next of that kind.
    Free { next: Link },
}

/// A value, the first of the trees below it, and the tree that follows beside it.
#[derive(Clone, Copy)]
pub struct Tree {
    pub value: i64,
    pub child: Link,
    pub sibling: Link,
}

pub(crate) fn tree_at(nodes: &[Node], place: usize) -> Tree
    requires { IsUsed nodes.now place }
    ensures { HasTree nodes.now place result }
{
    match nodes[place] {
        Node::Used(tree) => tree,
        Node::Free { .. } => unreachable!(),
    }
}

fn next_free(nodes: &[Node], place: usize) -> Link
    requires { IsFree nodes.now place }
    ensures { slice_get nodes.now place ≡ Some (Free result) }
{
    match nodes[place] {
        Node::Free { next } => next,
        Node::Used(_) => unreachable!(),
    }
}

/// Puts a value into a free node, if there is one, and else into a new one. Returns its place, and
/// the rest of the chain of free nodes.
pub(crate) fn put_node(
    nodes: &mut Vec<Node>,
    free: Link,
    value: i64,
) -> Result<(usize, Link), AllocError>
    requires { IfSome free (IsFree nodes.old.items) }
    ensures apart { IfOk result (λ put. (root : Option ℕ) (len : ℕ)
        → IsSound nodes.old.items root free len
        → IsApart nodes.new.items root put.1 len put.0 value) }
    ensures bag { IfOk result (λ _. bag_of (values_in_use nodes.new.items)
        ≡ with_value value (bag_of (values_in_use nodes.old.items))) }
    ensures err { OnErr result (nodes.new.items ≡ nodes.old.items) }
{
    let added = Node::Used(Tree {
        value,
        child: None,
        sibling: None,
    });
    if let Some(place) = free {
        let rest = next_free(nodes, place);
        nodes[place] = added;
        return Ok((place, rest));
    }
    let place = nodes.len();
    nodes.push(added)?;
    Ok((place, None))
}
