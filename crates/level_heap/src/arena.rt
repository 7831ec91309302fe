//! Leftist heaps in an arena: a merge adds nodes and changes none.

ghost use Rattle.std.specs.Prelude.{◌≡◌, ◌∷◌, [], ◌<◌, IfOk, length};
ghost use Rattle.level_heap.specs.Trees.{Empty, IsAlive, IsHeap, IsJoin, IsMerged, IsNext, numbers_between};
ghost use Rattle.level_heap.specs.Arenas.{Grows, IsArena, IsBelow, IsChoice, tree_at};

use crate::Order;
use crate::node::HeapNode;
use mg_word::NoMemory;
use std::ops::Range;

fn rank_of(nodes: &[HeapNode], link: Option<u32>) -> u32
    requires { IsBelow link (length nodes.now) }
{
    match link {
        Some(at) => nodes[at as usize].rank,
        None => 0,
    }
}

// Adds a node above two heaps, the one with the greater rank on the left, and answers its place.
fn join(
    nodes: &mut Vec<HeapNode>,
    item: u32,
    a: Option<u32>,
    b: Option<u32>,
) -> Result<u32, NoMemory>
    requires arena { IsArena nodes.old.items }
    requires a { IsBelow a (length nodes.old.items) }
    requires b { IsBelow b (length nodes.old.items) }
    ensures arena { IsArena nodes.new.items }
    ensures grows { Grows nodes.old.items nodes.new.items }
    ensures below { IfOk result (λ at. at < length nodes.new.items) }
    ensures joined { IfOk result (λ at. IsJoin item (tree_at nodes.old.items a) (tree_at nodes.old.items b) (tree_at nodes.new.items (Some at))) }
{
    let Ok(at) = u32::try_from(nodes.len()) else {
        return Err(NoMemory);
    };
    let a_rank = rank_of(nodes.as_slice(), a);
    let b_rank = rank_of(nodes.as_slice(), b);
    let node = if a_rank < b_rank {
        HeapNode {
            item,
            left: b,
            right: a,
            rank: a_rank.saturating_add(1),
        }
    } else {
        HeapNode {
            item,
            left: a,
            right: b,
            rank: b_rank.saturating_add(1),
        }
    };
    nodes.push(node)?;
    Ok(at)
}

// Two nodes, the one whose item stands first in front.
fn by_tops<O: Order>(order: &O, nodes: &[HeapNode], a: u32, b: u32) -> (u32, u32)
    requires arena { IsArena nodes.now }
    requires a_there { a < length nodes.now }
    requires b_there { b < length nodes.now }
    requires a_heap { IsHeap (O.order order.now) (tree_at nodes.now (Some a)) }
    requires b_heap { IsHeap (O.order order.now) (tree_at nodes.now (Some b)) }
    ensures { IsChoice (O.order order.now) nodes.now a b result.0 result.1 }
{
    let tops = order.compare(nodes[a as usize].item, nodes[b as usize].item);
    if tops.is_gt() { (b, a) } else { (a, b) }
}

// One heap of the items of two. It goes down their right sides, which the ranks keep short.
fn merge<O: Order>(
    order: &O,
    nodes: &mut Vec<HeapNode>,
    a: Option<u32>,
    b: Option<u32>,
) -> Result<Option<u32>, NoMemory>
    requires arena { IsArena nodes.old.items }
    requires a_below { IsBelow a (length nodes.old.items) }
    requires b_below { IsBelow b (length nodes.old.items) }
    requires a_heap { IsHeap (O.order order.now) (tree_at nodes.old.items a) }
    requires b_heap { IsHeap (O.order order.now) (tree_at nodes.old.items b) }
    ensures arena { IsArena nodes.new.items }
    ensures grows { Grows nodes.old.items nodes.new.items }
    ensures below { IfOk result (λ root. IsBelow root (length nodes.new.items)) }
    ensures merged { IfOk result (λ root. IsMerged (O.order order.now) (tree_at nodes.old.items a) (tree_at nodes.old.items b) (tree_at nodes.new.items root)) }
{
    let Some(a) = a else {
        return Ok(b);
    };
    let Some(b) = b else {
        return Ok(Some(a));
    };
    let (front, back) = by_tops(order, nodes.as_slice(), a, b);
    let top = nodes[front as usize];
    let rest = merge(order, nodes, top.right, Some(back))?;
    let root = join(nodes, top.item, top.left, rest)?;
    Ok(Some(root))
}

// The heap with one item more, unless that is dead.
fn with_item<O: Order>(
    order: &O,
    nodes: &mut Vec<HeapNode>,
    root: Option<u32>,
    item: u32,
) -> Result<Option<u32>, NoMemory>
    requires arena { IsArena nodes.old.items }
    requires below { IsBelow root (length nodes.old.items) }
    requires heap { IsHeap (O.order order.now) (tree_at nodes.old.items root) }
    ensures arena { IsArena nodes.new.items }
    ensures grows { Grows nodes.old.items nodes.new.items }
    ensures below { IfOk result (λ next. IsBelow next (length nodes.new.items)) }
    ensures next { IfOk result (λ next. IsNext (O.order order.now) (O.is_dead order.now) (tree_at nodes.old.items root) (item ∷ []) (tree_at nodes.new.items next)) }
{
    if order.is_dead(item) {
        return Ok(root);
    }
    let single = join(nodes, item, None, None)?;
    let next = merge(order, nodes, root, Some(single))?;
    Ok(next)
}

// A heap of the items that are not dead.
fn heap_of<O: Order>(
    order: &O,
    nodes: &mut Vec<HeapNode>,
    start: u32,
    end: u32,
) -> Result<Option<u32>, NoMemory>
    requires arena { IsArena nodes.old.items }
    ensures arena { IsArena nodes.new.items }
    ensures grows { Grows nodes.old.items nodes.new.items }
    ensures below { IfOk result (λ root. IsBelow root (length nodes.new.items)) }
    ensures next { IfOk result (λ root. IsNext (O.order order.now) (O.is_dead order.now) Empty (numbers_between start end) (tree_at nodes.new.items root)) }
{
    let mut root = None;
    for item in start..end {
        root = with_item(order, nodes, root, item)?;
    }
    Ok(root)
}

// The heap without the dead items at its top.
fn without_dead<O: Order>(
    order: &O,
    nodes: &mut Vec<HeapNode>,
    root: Option<u32>,
) -> Result<Option<u32>, NoMemory>
    requires arena { IsArena nodes.old.items }
    requires below { IsBelow root (length nodes.old.items) }
    requires heap { IsHeap (O.order order.now) (tree_at nodes.old.items root) }
    ensures arena { IsArena nodes.new.items }
    ensures grows { Grows nodes.old.items nodes.new.items }
    ensures below { IfOk result (λ next. IsBelow next (length nodes.new.items)) }
    ensures next { IfOk result (λ next. IsNext (O.order order.now) (O.is_dead order.now) (tree_at nodes.old.items root) [] (tree_at nodes.new.items next)) }
    ensures alive { IfOk result (λ next. IsAlive (O.is_dead order.now) (tree_at nodes.new.items next)) }
{
    let mut next = root;
    while let Some(at) = next {
        let top = nodes[at as usize];
        if !order.is_dead(top.item) {
            return Ok(next);
        }
        next = merge(order, nodes, top.left, top.right)?;
    }
    Ok(next)
}

/// The heap with these items more, but for dead ones, and no dead one on top.
pub fn next_root<O: Order>(
    order: &O,
    nodes: &mut Vec<HeapNode>,
    root: Option<u32>,
    items: Range<u32>,
) -> Result<Option<u32>, NoMemory>
    requires arena { IsArena nodes.old.items }
    requires below { IsBelow root (length nodes.old.items) }
    requires heap { IsHeap (O.order order.now) (tree_at nodes.old.items root) }
    ensures arena { IsArena nodes.new.items }
    ensures grows { Grows nodes.old.items nodes.new.items }
    ensures below { IfOk result (λ next. IsBelow next (length nodes.new.items)) }
    ensures next { IfOk result (λ next. IsNext (O.order order.now) (O.is_dead order.now) (tree_at nodes.old.items root) (numbers_between items.start items.end) (tree_at nodes.new.items next)) }
    ensures alive { IfOk result (λ next. IsAlive (O.is_dead order.now) (tree_at nodes.new.items next)) }
{
    let fresh = heap_of(order, nodes, items.start, items.end)?;
    let merged = merge(order, nodes, root, fresh)?;
    let next = without_dead(order, nodes, merged)?;
    Ok(next)
}
