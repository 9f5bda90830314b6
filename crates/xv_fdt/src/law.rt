//! Laws over the definitions: reading and writing agree, and what a tree that was read looks like.
ghost use Rattle.std.specs.Prelude.{◌≡◌, ◌<◌, ◌≤◌, ◌^◌, List, length, Ok};
ghost use Rattle.xv_fdt.specs.Grammar.{IsAllowed, tree};
ghost use Rattle.xv_fdt.specs.Shape.{IsShaped};
ghost use Rattle.xv_fdt.specs.Tree.{Entry};
ghost use Rattle.xv_fdt.specs.Written.{written};

/// What `write` writes of a tree that some file has is read as that tree.
pub fn reads_again()
    ensures { (entries : List Entry) → IsAllowed entries → length (written entries) ≤ 1048576
        → tree (written entries) ≡ Ok entries }
{}

/// Each tree that some file has begins with the root, and every other node has a name, lies in a
/// node before it, and has a depth of 2 to 16.
pub fn is_shaped()
    ensures { (entries : List Entry) → IsAllowed entries → IsShaped entries }
{}

/// The nodes of a tree that some file has can be numbered with 32 bits.
pub fn has_few_nodes()
    ensures { (entries : List Entry) → IsAllowed entries → length entries < 2 ^ 32 }
{}
