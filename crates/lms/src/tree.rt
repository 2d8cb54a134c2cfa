// A whole tree, in an array that has each node at its number, as RFC 8554 counts them: there is no heap for boxes.
ghost use Rattle.std.specs.Prelude.{◌≡◌, ◌+◌, ◌-◌, ◌*◌, ◌<◌, ◌≤◌, [], slice_index_or};
ghost use Rattle.sha256.specs.Sha256.{bytes, sha256};
ghost use Rattle.lmots.specs.LmOts.{K as key_of};
ghost use Rattle.lms.specs.Kinds.{type_number};
ghost use Rattle.lms.specs.Lms.{height as height_of, leaf, inner, Grown};

use crate::kind::LmsType;
use crate::nodes::{inner_node, leaf_node};
use lmots::material::KeyMaterial;

// How many nodes the largest tree has, with the unused node 0.
const NODES: usize = 2048;

pub(crate) type Nodes = [[u8; 32]; NODES];

// Node r, from the nodes below it.
fn node_over(material: KeyMaterial, leaves: u32, nodes: &Nodes, r: u32) -> [u8; 32]
    requires { (leaves ≤ 1024) × (r < 2 * leaves) }
    ensures bottom { leaves ≤ r → result ≡ leaf sha256 (bytes material.id) r (key_of sha256 (bytes material.id) (r - leaves) (bytes material.seed)) }
    ensures up { r < leaves → result ≡ inner sha256 (bytes material.id) r (slice_index_or nodes.now (2 * r) []) (slice_index_or nodes.now (2 * r + 1) []) }
{
    if r >= leaves {
        leaf_node(material.id, r, &material.leaf_key(r - leaves))
    } else {
        let left = 2 * r as usize;
        inner_node(material.id, r, &nodes[left], &nodes[left + 1])
    }
}

// The nodes of a tree, worked out from the last leaf to the root.
pub(crate) fn grow(material: KeyMaterial, kind: LmsType) -> Nodes
    ensures { Grown sha256 (height_of (type_number kind)) (bytes material.id) (bytes material.seed) 1 result }
{
    let leaves = kind.leaves();
    let mut nodes = [[0; 32]; NODES];
    for r in (1..2 * leaves).rev() {
        let node = node_over(material, leaves, &nodes, r);
        nodes[r as usize] = node;
    }
    nodes
}
