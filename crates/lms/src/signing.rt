// Keys and signatures of a tree.
ghost use Rattle.std.specs.Prelude.{◌≡◌, ℕ, ◌+◌, ◌*◌, ◌^◌, ◌<◌, ◌≤◌, List, length, take};
ghost use Rattle.std.specs.List.{flat_map};
ghost use Rattle.sha256.specs.Sha256.{bytes, sha256};
ghost use Rattle.octets.specs.Buffers.{over};
ghost use Rattle.lms.specs.Kinds.{type_number};
ghost use Rattle.lms.specs.Lms.{height as height_of, beside as beside_of, picked, public_key, signature as signature_of, Grown};

use crate::kind::LmsType;
use crate::secret::TreeSecret;
use crate::tree::Nodes;
use lmots::signing::TYPE as ONE_TIME_TYPE;
use lmots::words::id_bytes;
use octets::buffer::put;

// How many bytes a public key has: both types, the identifier and node 1.
pub const PUBLIC_KEY_LEN: usize = 56;

// Where a signature has its tree's type, behind the leaf's number and the one-time signature.
pub(crate) const TYPE_AT: usize = 1128;

// Where its path begins.
pub(crate) const PATH_AT: usize = 1132;

// The height of the tallest tree.
const HEIGHT_MAX: usize = 10;

// The public key of a tree.
pub(crate) fn public_key(id: [u32; 4], kind: LmsType, nodes: &Nodes) -> [u8; PUBLIC_KEY_LEN]
    ensures { (S : List ℕ) → Grown sha256 (height_of (type_number kind)) (bytes id) S 1 nodes.now → result ≡ public_key sha256 (type_number kind) (bytes id) S }
{
    let mut key = [0; PUBLIC_KEY_LEN];
    put(&mut key, 0, &u32::from(kind).to_be_bytes());
    put(&mut key, 4, &ONE_TIME_TYPE.to_be_bytes());
    put(&mut key, 8, &id_bytes(id));
    put(&mut key, 24, &nodes[1]);
    key
}

// The other child of the node above r.
fn beside(r: u32) -> u32
    requires { r < 2048 }
    ensures is { result ≡ beside_of r }
    ensures below { result < 2048 }
{
    if r % 2 == 1 { r - 1 } else { r + 1 }
}

// What stands beside node r and the nodes above it, as many as `height` says; the rest is zeros.
fn path(nodes: &Nodes, height: usize, r: u32) -> [[u8; 32]; HEIGHT_MAX]
    requires low { height ≤ 10 }
    requires inside { r < 2048 }
    ensures { flat_map (λ v. v) (take height result) ≡ picked nodes.now height r }
{
    let mut path = [[0; 32]; HEIGHT_MAX];
    let mut place = r;
    for sibling in &mut path[..height] {
        *sibling = nodes[beside(place) as usize];
        place /= 2;
    }
    path
}

impl TreeSecret {
    // Writes the signature of a leaf over a message at the start of `out`.
    pub(crate) fn write(&self, leaf: u32, message: &[u8], out: &mut [u8])
        requires { (leaf < 2 ^ height_of (type_number self.now.kind)) × (1132 + 32 * height_of (type_number self.now.kind) ≤ length out.old) }
        ensures { out.new ≡ over (signature_of sha256 (type_number self.now.kind) (bytes self.now.material.id) (bytes self.now.material.seed) leaf message.now) out.old }
    {
        let kind = self.kind;
        let height = kind.height();
        let path = path(&self.nodes, height, kind.leaves() + leaf);
        put(out, 0, &leaf.to_be_bytes());
        put(out, 4, &self.material.sign(leaf, message));
        put(out, TYPE_AT, &u32::from(kind).to_be_bytes());
        put(out, PATH_AT, path[..height].as_flattened());
    }
}
