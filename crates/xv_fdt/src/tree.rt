//! A device tree in memory.
use crate::name::NodeName;
use std::marker::Model;

/// A property of a node: its name, and its value as bytes, whose numbers are big-endian
/// (Devicetree Specification v0.4, section 2.2.4).
#[derive(Debug, Drop)]
pub struct Prop {
    pub name: NodeName,
    pub value: Vec<u8>,
}

impl Model for Prop {
    ghost use Rattle.xv_fdt.specs.Tree.{Property};

    ghost Value = { Property };

    ghost view = { λ p. record { name = p.name; value = p.value.items } };
}

/// A node (2.2.1). Nodes are numbered from 0 in order of their begin tokens: `parent` is the number
/// of the node in which it lies, and 0 at the root, whose depth is 1.
#[derive(Debug, Drop)]
pub struct Node {
    pub name: NodeName,
    pub parent: u32,
    pub depth: u8,
    pub props: Vec<Prop>,
}

impl Model for Node {
    ghost use Rattle.xv_fdt.specs.Tree.{Entry};

    ghost Value = { Entry };

    ghost view = { λ n. record {
      name = n.name;
      parent = n.parent;
      depth = n.depth;
      props = n.props.items;
    } };
}

/// The nodes in order of their begin tokens, the root first. Contracts see the list of them.
#[derive(Debug, Drop)]
pub struct Tree {
    pub nodes: Vec<Node>,
}

impl Model for Tree {
    ghost use Rattle.std.specs.Prelude.{List};
    ghost use Rattle.xv_fdt.specs.Tree.{Entry};

    ghost Value = { List Entry };

    ghost view = { λ t. t.nodes.items };
}
