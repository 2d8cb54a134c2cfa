// The secret of a tree.
ghost use Rattle.std.specs.Prelude.{◌≡◌};
ghost use Rattle.sha256.specs.Sha256.{bytes, sha256};
ghost use Rattle.lms.specs.Kinds.{type_number};
ghost use Rattle.lms.specs.Lms.{height, public_key, Grown};

use crate::kind::LmsType;
use crate::tree::Nodes;
use lmots::material::KeyMaterial;

// What the key is made from, the tree's type, its public key and all its nodes, so that signing does not work them
// out again.
#[derive(Drop)]
pub struct TreeSecret {
    pub(crate) material: KeyMaterial,
    pub(crate) kind: LmsType,
    pub(crate) public: [u8; 56],
    pub(crate) nodes: Nodes,
    ghost keyed: { public ≡ public_key sha256 (type_number kind) (bytes material.id) (bytes material.seed) },
    ghost grown: { Grown sha256 (height (type_number kind)) (bytes material.id) (bytes material.seed) 1 nodes },
}
