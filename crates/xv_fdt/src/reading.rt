//! A tree read from the bytes of a file.
ghost use Rattle.std.specs.Prelude.{IfOk};
ghost use Rattle.xv_fdt.specs.Fault.{Gives};
ghost use Rattle.xv_fdt.specs.Grammar.{IsAllowed, tree};

use crate::blocks::Blocks;
use crate::fault::FdtFault;
use crate::header::header;
use crate::nodes::nodes_of;
use crate::tree::Tree;
use std::alloc::Global;

#[tactic(auto, unfolding(crate::specs::Grammar::tree))]
fn tree_of(alloc: Global, bytes: &[u8]) -> Result<Tree, FdtFault>
    ensures { Gives (λ found. found) result (tree bytes.now) }
{
    let layout = header(bytes)?;
    let blocks = Blocks {
        structure: &bytes[..layout.structure + layout.structure_size],
        strings: &bytes[layout.strings..layout.strings + layout.strings_size],
    };
    let nodes = nodes_of(alloc, &blocks, layout.structure)?;
    Ok(Tree { nodes })
}

/// The tree of the bytes of a file (Devicetree Specification v0.4, chapter 5), or the first rule
/// that the file breaks. A file of n bytes costs no more than n log n steps, and less than 40 n
/// bytes of memory.
pub fn read(alloc: Global, bytes: &[u8]) -> Result<Tree, FdtFault>
    ensures exact { Gives (λ found. found) result (tree bytes.now) }
    ensures allowed { IfOk result IsAllowed }
{
    tree_of(alloc, bytes)
}
