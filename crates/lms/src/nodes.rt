// The nodes of a tree, and the way up to its root.
ghost use Rattle.std.specs.Prelude.{◌≡◌, ◌*◌, ◌/◌, ◌≤◌, length};
ghost use Rattle.sha256.specs.Sha256.{bytes, sha256};
ghost use Rattle.lms.specs.Lms.{half as half_of, leaf, inner, climb as climbed};

use lmots::hashes::tagged;

// Identifier and number stay parameters here: a climb changes the number at each level, so that a struct of both would
// be made anew for each call.

// The node of a leaf, from its key.
pub(crate) fn leaf_node(id: [u32; 4], r: u32, key: &[u8]) -> [u8; 32]
    ensures { result ≡ leaf sha256 (bytes id) r key.now }
{
    let mut hasher = tagged(id, r, 0x82);
    hasher.update(key);
    hasher.finish()
}

// The node over two others.
pub(crate) fn inner_node(id: [u32; 4], r: u32, left: &[u8], right: &[u8]) -> [u8; 32]
    ensures { result ≡ inner sha256 (bytes id) r left.now right.now }
{
    let mut hasher = tagged(id, r, 0x83);
    hasher.update(left);
    hasher.update(right);
    hasher.finish()
}

// The first at an odd node, the second at an even one.
fn half<'a>(r: u32, odd: &'a [u8], even: &'a [u8]) -> &'a [u8]
    ensures { result.now ≡ half_of r odd.now even.now }
{
    if r % 2 == 1 { odd } else { even }
}

// A level up from node r for each sibling in the path.
pub(crate) fn climb(id: [u32; 4], r: u32, bottom: [u8; 32], path: &[u8]) -> [u8; 32]
    ensures { result ≡ climbed sha256 (bytes id) (length path.now / 32) r bottom path.now }
{
    let mut node = bottom;
    let mut place = r;
    for sibling in path.as_chunks::<32>().0 {
        let left = half(place, sibling, &node);
        let right = half(place, &node, sibling);
        place /= 2;
        let above = inner_node(id, place, left, right);
        node = above;
    }
    node
}
