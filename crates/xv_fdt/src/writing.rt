//! A tree written as the bytes of a file.
ghost use Rattle.std.specs.Prelude.{◌≡◌, ◌+◌, ◌-◌, ◌≤◌, ◌<◌, ◌^◌, ◌++◌, ◌∷◌, [], length, replicate};
ghost use Rattle.std.specs.Prelude.{OnOk, IfOk};
ghost use Rattle.xv_fdt.specs.Written as spec;

use crate::token::padded_len;
use crate::tree::{Node, Prop, Tree};
use byteorder::{BigEndian, ByteOrder};
use std::alloc::Global;
use xv_base::NoMemory;

/// FDT_BEGIN_NODE, FDT_END_NODE, FDT_PROP and FDT_END (5.4.1).
const BEGIN_NODE: usize = 1;

const END_NODE: usize = 2;

const PROP: usize = 3;

const END: usize = 9;

/// The first word of a file (5.2).
const MAGIC: usize = 0xd00dfeed;

/// The version that is written, and the oldest that it can be read as (5.2).
const VERSION: usize = 17;

const LAST_COMPATIBLE: usize = 16;

/// Where the reservations begin, one pair of zeros, and behind them the structure block.
const RESERVATIONS: usize = 40;

const STRUCTURE: usize = 56;

fn put(out: &mut Vec<u8>, bytes: &[u8]) -> Result<(), NoMemory>
    ensures { OnOk result (out.new.items ≡ out.old.items ++ bytes.now) }
{
    out.extend_from_slice(bytes)?;
    Ok(())
}

fn big_word(number: usize) -> [u8; 4]
    ensures { result ≡ spec.big_word number }
{
    let mut bytes = [0; 4];
    BigEndian::write_u32(&mut bytes, (number % (1 << 32)) as u32);
    bytes
}

fn put_word(out: &mut Vec<u8>, number: usize) -> Result<(), NoMemory>
    ensures { OnOk result (out.new.items ≡ out.old.items ++ spec.big_word number) }
{
    put(out, &big_word(number))
}

fn put_zeros(out: &mut Vec<u8>, count: usize) -> Result<(), NoMemory>
    ensures { OnOk result (out.new.items ≡ out.old.items ++ replicate count 0) }
{
    for _ in 0..count {
        out.push(0)?;
    }
    Ok(())
}

#[tactic(auto, unfolding(crate::specs::Written::with_padding))]
fn put_padded(out: &mut Vec<u8>, bytes: &[u8]) -> Result<(), NoMemory>
    ensures { OnOk result (out.new.items ≡ out.old.items ++ spec.with_padding bytes.now) }
{
    put(out, bytes)?;
    put_zeros(out, padded_len(bytes.len()) - bytes.len())
}

/// A name and the 0 behind it.
fn put_name(out: &mut Vec<u8>, name: &[u8]) -> Result<(), NoMemory>
    ensures { OnOk result (out.new.items ≡ out.old.items ++ (name.now ++ (0 ∷ []))) }
{
    put(out, name)?;
    out.push(0)?;
    Ok(())
}

#[tactic(auto, unfolding(crate::specs::Written::begin_bytes, crate::specs::Written::with_padding))]
fn put_begin(out: &mut Vec<u8>, name: &[u8]) -> Result<(), NoMemory>
    requires { length name.now ≤ 63 }
    ensures { OnOk result (out.new.items ≡ out.old.items ++ spec.begin_bytes name.now) }
{
    put_word(out, BEGIN_NODE)?;
    put_name(out, name)?;
    let len = name.len() + 1;
    put_zeros(out, padded_len(len) - len)
}

/// Puts a property, and its name at the end of the strings.
#[tactic(auto, unfolding(crate::specs::Written::property_bytes))]
fn put_property(structure: &mut Vec<u8>, strings: &mut Vec<u8>, prop: &Prop) -> Result<(), NoMemory>
    ensures structure { OnOk result (structure.new.items
        ≡ structure.old.items ++ spec.property_bytes (length strings.old.items) prop.now) }
    ensures strings { OnOk result (strings.new.items
        ≡ strings.old.items ++ ((prop.now).name ++ (0 ∷ []))) }
{
    put_word(structure, PROP)?;
    put_word(structure, prop.value.len())?;
    put_word(structure, strings.len())?;
    put_padded(structure, &prop.value)?;
    put_name(strings, prop.name.bytes())?;
    Ok(())
}

/// Puts the properties of a node, and their names at the end of the strings.
fn put_properties(
    structure: &mut Vec<u8>,
    strings: &mut Vec<u8>,
    props: &[Prop],
) -> Result<(), NoMemory>
    ensures structure { OnOk result (structure.new.items
        ≡ structure.old.items ++ spec.properties_bytes (length strings.old.items) props.now) }
    ensures strings { OnOk result (strings.new.items
        ≡ strings.old.items ++ spec.names_bytes props.now) }
{
    for prop in props {
        put_property(structure, strings, prop)?;
    }
    Ok(())
}

fn put_ends(out: &mut Vec<u8>, count: usize) -> Result<(), NoMemory>
    ensures { OnOk result (out.new.items ≡ out.old.items ++ spec.ends count) }
{
    for _ in 0..count {
        put_word(out, END_NODE)?;
    }
    Ok(())
}

/// Ends the open nodes that a node isn't in, and puts the node with its properties, whose names go
/// to the end of the strings.
fn put_node(
    structure: &mut Vec<u8>,
    strings: &mut Vec<u8>,
    open_nodes: u8,
    node: &Node,
) -> Result<(), NoMemory>
    ensures structure { OnOk result (structure.new.items
        ≡ structure.old.items ++ (spec.ends (open_nodes + 1 - (node.now).depth)
        ++ (spec.begin_bytes (node.now).name
        ++ spec.properties_bytes (length strings.old.items) (node.now).props))) }
    ensures strings { OnOk result (strings.new.items
        ≡ strings.old.items ++ spec.names_bytes (node.now).props) }
{
    put_ends(
        structure,
        (open_nodes as usize + 1).saturating_sub(node.depth as usize),
    )?;
    put_begin(structure, node.name.bytes())?;
    put_properties(structure, strings, &node.props)?;
    Ok(())
}

/// Puts the nodes and their ends, and the names of their properties at the end of the strings.
fn put_nodes(structure: &mut Vec<u8>, strings: &mut Vec<u8>, nodes: &[Node]) -> Result<(), NoMemory>
    ensures structure { OnOk result (structure.new.items
        ≡ structure.old.items ++ spec.structure_bytes 0 (length strings.old.items) nodes.now) }
    ensures strings { OnOk result (strings.new.items
        ≡ strings.old.items ++ spec.strings_bytes nodes.now) }
{
    let mut open_nodes: u8 = 0;
    for node in nodes {
        put_node(structure, strings, open_nodes, node)?;
        open_nodes = node.depth;
    }
    put_ends(structure, open_nodes as usize)?;
    put_word(structure, END)?;
    Ok(())
}

fn put_words(out: &mut Vec<u8>, numbers: &[usize]) -> Result<(), NoMemory>
    ensures { OnOk result (out.new.items ≡ out.old.items ++ spec.words_bytes numbers.now) }
{
    for number in numbers {
        put_word(out, *number)?;
    }
    Ok(())
}

/// Puts the header for blocks of these sizes. A field keeps the lowest 32 bits, so a sum may wrap.
fn put_header(out: &mut Vec<u8>, structure: usize, strings: usize) -> Result<(), NoMemory>
    ensures { OnOk result (out.new.items
        ≡ out.old.items ++ spec.words_bytes (spec.header_fields structure strings)) }
{
    let end = STRUCTURE.wrapping_add(structure);
    let fields = [
        MAGIC,
        end.wrapping_add(strings),
        STRUCTURE,
        end,
        RESERVATIONS,
        VERSION,
        LAST_COMPATIBLE,
        0,
        strings,
        structure,
    ];
    put_words(out, &fields)?;
    Ok(())
}

/// The file of this tree: its header (version 17, last compatible version 16), one pair of zeros as
/// reservations, its structure, and its strings, none of them shared (Devicetree Specification
/// v0.4, chapter 5). `read` gives the tree again if some file has it and this one has at most
/// 1,048,576 bytes.
#[tactic(auto, unfolding(crate::specs::Written::written))]
pub fn write(alloc: Global, tree: &Tree) -> Result<Vec<u8>, NoMemory>
    ensures { IfOk result (λ bytes. bytes.items ≡ spec.written tree.now) }
{
    let mut structure = Vec::new(alloc);
    let mut strings = Vec::new(alloc);
    put_nodes(&mut structure, &mut strings, &tree.nodes)?;
    let mut out = Vec::new(alloc);
    put_header(&mut out, structure.len(), strings.len())?;
    put_zeros(&mut out, 16)?;
    put(&mut out, &structure)?;
    put(&mut out, &strings)?;
    Ok(out)
}
