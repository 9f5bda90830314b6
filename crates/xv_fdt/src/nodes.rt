//! The nodes of a tree.
ghost use Rattle.std.specs.Prelude.{◌≡◌, ◌+◌, ◌≤◌, ◌<◌, ◌^◌, ◌==◌, nat_le, [], ◌∷◌, ◌++◌, List};
ghost use Rattle.std.specs.Prelude.{IfOk, Ok, length};
ghost use Rattle.xv_fdt.specs.Fault.{Gives, given};
ghost use Rattle.xv_fdt.specs.Grammar as grammar;
ghost use Rattle.xv_fdt.specs.Progress.{taken_in, with_front, tokens_in, tokens_inside, stray_kind};
ghost use Rattle.xv_fdt.specs.Progress.{stray_child_kind};
ghost use Rattle.xv_fdt.specs.Token as spec;

use crate::blocks::{Blocks, name_at};
use crate::fault::{FdtFault, FdtKind, fault};
use crate::name::{NodeName, short};
use crate::names::NameSet;
use crate::properties::properties;
use crate::token::{Mark, next_token, padded_len};
use crate::tree::Node;
use std::alloc::Global;

/// The greatest depth of a node; the root has 1.
const DEEPEST: u8 = 16;

/// The kind of the fault at a token that nothing allows.
fn stray_kind(mark: Mark) -> FdtKind
    ensures { result ≡ stray_kind mark }
{
    match mark {
        Mark::Strange => FdtKind::BadToken,
        Mark::Cut => FdtKind::Short,
        _ => FdtKind::Unbalanced,
    }
}

/// The kind of the fault at a token that may not stand among the children of a node.
fn stray_child_kind(mark: Mark) -> FdtKind
    ensures { result ≡ stray_child_kind mark }
{
    match mark {
        Mark::Prop | Mark::Strange => FdtKind::BadToken,
        Mark::Cut => FdtKind::Short,
        _ => FdtKind::Unbalanced,
    }
}

/// The node of that name whose properties stand from a place on, and the place behind them.
fn node_of(
    alloc: Global,
    blocks: &Blocks<'_>,
    name: NodeName,
    parent: u32,
    depth: u8,
    inside: usize,
) -> Result<(Node, usize), FdtFault>
    requires small { length blocks.now.structure.now ≤ 2 ^ 20 }
    requires near { inside ≤ length blocks.now.structure.now + 3 }
    ensures exact { Gives (λ found. (found.0, tokens_in blocks.now found.1)) result
        (grammar.node_of (Ok name) parent depth (tokens_in blocks.now inside)) }
    ensures forward { IfOk result (λ found. inside ≤ found.1) }
    ensures near { IfOk result (λ found. found.1 ≤ length blocks.now.structure.now + 3) }
{
    let (props, next) = properties(alloc, blocks, inside)?;
    let node = Node {
        name,
        parent,
        depth,
        props,
    };
    Ok((node, next))
}

/// The child whose begin token stands at a place, and the place behind its properties. Its name is
/// taken then.
fn child(
    alloc: Global,
    blocks: &Blocks<'_>,
    names: &mut NameSet,
    parent: u32,
    depth: u8,
    at: usize,
) -> Result<(Node, usize), FdtFault>
    requires small { length blocks.now.structure.now ≤ 2 ^ 20 }
    requires whole { at + 4 ≤ length blocks.now.structure.now }
    requires mark { spec.mark_at blocks.now.structure.now at ≡ Mark.Begin }
    ensures exact { Gives (λ found. (found.0, tokens_in blocks.now found.1)) result
        (given (nat_le depth 16) FdtKind.TooDeep at
        (grammar.node_of
        (grammar.node_name (taken_in names.old) at (spec.name_at blocks.now.structure.now at))
        parent depth (tokens_inside blocks.now at))) }
    ensures taken { IfOk result (λ found.
        taken_in names.new ≡ grammar.with_name (taken_in names.old) (found.0).name) }
    ensures deep { IfOk result (λ _. depth ≤ 16) }
    ensures forward { IfOk result (λ found. at + 4 ≤ found.1) }
    ensures near { IfOk result (λ found. found.1 ≤ length blocks.now.structure.now + 3) }
{
    if depth > DEEPEST {
        return Err(fault(FdtKind::TooDeep, at));
    }
    let bytes = match name_at(blocks.structure, at) {
        Ok(bytes) => bytes,
        Err(kind) => return Err(fault(kind, at)),
    };
    let Some(name) = names.new_name(bytes) else {
        return Err(fault(FdtKind::BadName, at));
    };
    names.add(name)?;
    node_of(
        alloc,
        blocks,
        name,
        parent,
        depth,
        at + 4 + padded_len(bytes.len() + 1),
    )
}

/// The root, whose begin token stands at a place, and the place behind its properties.
fn root(alloc: Global, blocks: &Blocks<'_>, at: usize) -> Result<(Node, usize), FdtFault>
    requires small { length blocks.now.structure.now ≤ 2 ^ 20 }
    requires whole { at + 4 ≤ length blocks.now.structure.now }
    requires mark { spec.mark_at blocks.now.structure.now at ≡ Mark.Begin }
    ensures exact { Gives (λ found. (found.0, tokens_in blocks.now found.1)) result
        (grammar.node_of (grammar.root_name at (spec.name_at blocks.now.structure.now at))
        0 1 (tokens_inside blocks.now at)) }
    ensures forward { IfOk result (λ found. at + 4 ≤ found.1) }
    ensures near { IfOk result (λ found. found.1 ≤ length blocks.now.structure.now + 3) }
{
    let bytes = match name_at(blocks.structure, at) {
        Ok(bytes) => bytes,
        Err(kind) => return Err(fault(kind, at)),
    };
    if !bytes.is_empty() {
        return Err(fault(FdtKind::BadName, at));
    }
    node_of(
        alloc,
        blocks,
        short(bytes),
        0,
        1,
        at + 4 + padded_len(bytes.len() + 1),
    )
}

/// Reads the children of the node `parent`, with all that is below them, from a place on up to the
/// node's end, and answers the place behind that. The depth of the recursion is that of the tree.
fn children(
    alloc: Global,
    blocks: &Blocks<'_>,
    nodes: &mut Vec<Node>,
    parent: u32,
    depth: u8,
    from: usize,
) -> Result<usize, FdtFault>
    requires small { length blocks.now.structure.now ≤ 2 ^ 20 }
    requires near { from ≤ length blocks.now.structure.now + 3 }
    requires deep { depth ≤ 17 }
    requires few { length nodes.old.items ≤ from }
    ensures exact { Gives (λ next. (nodes.new.items, tokens_in blocks.now next)) result
        (with_front nodes.old.items
        (grammar.children (length nodes.old.items) parent depth grammar.nobody
        (tokens_in blocks.now from))) }
    ensures few { IfOk result (λ next. length nodes.new.items ≤ next) }
    ensures forward { IfOk result (λ next. from ≤ next) }
    ensures near { IfOk result (λ next. next ≤ length blocks.now.structure.now + 3) }
{
    let mut names = NameSet::new(alloc);
    let mut at = from;
    loop {
        let (mark, place) = next_token(blocks.structure, at);
        match mark {
            Mark::Begin => {
                let number = nodes.len() as u32;
                let (node, inside) = child(alloc, blocks, &mut names, parent, depth, place)?;
                nodes.push(node)?;
                at = children(alloc, blocks, nodes, number, depth + 1, inside)?;
            }
            Mark::EndNode => return Ok(place + 4),
            _ => return Err(fault(stray_child_kind(mark), place)),
        }
    }
}

/// The nodes of the tree whose tokens stand from a place on.
pub(crate) fn nodes_of(
    alloc: Global,
    blocks: &Blocks<'_>,
    from: usize,
) -> Result<Vec<Node>, FdtFault>
    requires small { length blocks.now.structure.now ≤ 2 ^ 20 }
    requires near { from ≤ length blocks.now.structure.now + 3 }
    ensures { Gives (λ nodes. nodes.items) result
        (grammar.nodes_of (tokens_in blocks.now from)) }
{
    let (mark, place) = next_token(blocks.structure, from);
    let Mark::Begin = mark else {
        return Err(fault(stray_kind(mark), place));
    };
    let (first, inside) = root(alloc, blocks, place)?;
    let mut nodes = Vec::new(alloc);
    nodes.push(first)?;
    let next = children(alloc, blocks, &mut nodes, 0, 2, inside)?;
    let (mark, place) = next_token(blocks.structure, next);
    let Mark::End = mark else {
        return Err(fault(stray_kind(mark), place));
    };
    Ok(nodes)
}
