//! The nodes in a node.
ghost use Rattle.std.specs.Prelude.{◌≡◌, ◌<◌, ◌^◌, length, option_map, slice_get};
ghost use Rattle.xv_tree.specs.Children.{children, root_child};

use xv_fdt::Node;

/// The number of the root's child of that name.
pub(crate) fn root_child(nodes: &[Node], name: &[u8]) -> Option<u32>
    requires few { length nodes.now < 2 ^ 32 }
    ensures number { result ≡ option_map (λ n. n.0) (root_child name.now nodes.now) }
{
    for number in 1..nodes.len() {
        let node = &nodes[number];
        if node.parent != 0 {
            continue;
        }
        if node.name.bytes() == name {
            return Some(number as u32);
        }
    }
    None
}

/// The number of the child at that place, counted from 0, of the node `parent`.
pub(crate) fn child_at(nodes: &[Node], parent: u32, place: usize) -> Option<u32>
    requires few { length nodes.now < 2 ^ 32 }
    ensures number { result ≡ option_map (λ n. n.0) (slice_get (children parent nodes.now) place) }
{
    let mut left = place;
    for number in 1..nodes.len() {
        let node = &nodes[number];
        if node.parent != parent {
            continue;
        }
        if left == 0 {
            return Some(number as u32);
        }
        left -= 1;
    }
    None
}
