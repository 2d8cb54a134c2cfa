// Checking signatures.
ghost use Rattle.std.specs.Prelude.{◌≡◌, ◌+◌, ◌*◌, ◌^◌, ◌<◌, length, drop, Decides};
ghost use Rattle.std.specs.Str.{bytes_eq};
ghost use Rattle.sha256.specs.Sha256.{sha256};
ghost use Rattle.octets.specs.Parts.{cut};
ghost use Rattle.lms.specs.Accepted.{Accepted};
ghost use Rattle.lms.specs.Kinds.{type_number};
ghost use Rattle.lms.specs.Lms.{height as height_of, well_formed, suitable, root as root_of, holds as holding};

use crate::kind::LmsType;
use crate::nodes::{climb, leaf_node};
use crate::signing::{PATH_AT, TYPE_AT};
use lmots::checking::PARTS_LEN;
use lmots::leaf::Leaf;
use lmots::signing::TYPE as ONE_TIME_TYPE;
use lmots::words::id_words;
use octets::numbers::{leading_number, number_at};

// How many bytes follow a public key's type: the one-time type, the identifier and node 1.
const REST_LEN: usize = 52;

// How many bytes of a signature stand behind the one-time type and before the path: the one-time parts and the type.
const BEFORE_PATH: usize = 1124;

// Whether what a signature has behind its one-time type leads to node 1 of a key.
fn leads(kind: LmsType, key: &[u8], leaf: u32, message: &[u8], signature: &[u8]) -> bool
    requires key { length key.now ≡ 56 }
    requires long { length signature.now ≡ 1132 + 32 * height_of (type_number kind) }
    requires below { leaf < 2 ^ height_of (type_number kind) }
    ensures { result ≡ bytes_eq (root_of sha256 (height_of (type_number kind)) (cut 8 16 key.now) leaf message.now (cut 8 1120 signature.now) (drop 1132 signature.now)) (drop 24 key.now) }
{
    let Some(id) = key[8..].first_chunk::<16>() else {
        return false;
    };
    let id = id_words(id);
    let one_time = Leaf { id, number: leaf };
    let Some(leaf_key) = one_time.candidate(message, &signature[8..TYPE_AT]) else {
        return false;
    };
    let r = kind.leaves() + leaf;
    let bottom = leaf_node(id, r, &leaf_key);
    let root = climb(id, r, bottom, &signature[PATH_AT..]);
    root.as_slice() == &key[24..]
}

// Whether a signature of a leaf and a one-time type, with these parts behind them, is one of a tree of this type.
fn suits(kind: LmsType, leaf: u32, one_time: u32, parts: &[u8]) -> bool
    ensures { result ≡ suitable (type_number kind) leaf one_time parts.now }
{
    one_time == ONE_TIME_TYPE
        && number_at(parts, PARTS_LEN) == u32::from(kind)
        && leaf < kind.leaves()
        && parts.len() == BEFORE_PATH + 32 * kind.height()
}

// Whether a public key has a known type, the one-time type, and is as long as it should be.
pub fn is_well_formed(key: &[u8]) -> bool
    ensures { result ≡ well_formed key.now }
{
    let [t0, t1, t2, t3, rest @ ..] = key else {
        return false;
    };
    let kind = LmsType::try_from(u32::from_be_bytes([*t0, *t1, *t2, *t3]));
    kind.is_ok() && leading_number(rest) == ONE_TIME_TYPE && rest.len() == REST_LEN
}

// By the tests that make a signature hold. A key is its type and the rest; a signature is the leaf's number, the
// one-time type and the rest.
fn verdict(key: &[u8], message: &[u8], signature: &[u8]) -> bool
    ensures { result ≡ holding sha256 key.now message.now signature.now }
{
    let [t0, t1, t2, t3, rest @ ..] = key else {
        return false;
    };
    let [q0, q1, q2, q3, o0, o1, o2, o3, parts @ ..] = signature else {
        return false;
    };
    let Ok(kind) = LmsType::try_from(u32::from_be_bytes([*t0, *t1, *t2, *t3])) else {
        return false;
    };
    if leading_number(rest) != ONE_TIME_TYPE || rest.len() != REST_LEN {
        return false;
    }
    let leaf = u32::from_be_bytes([*q0, *q1, *q2, *q3]);
    let one_time = u32::from_be_bytes([*o0, *o1, *o2, *o3]);
    suits(kind, leaf, one_time, parts) && leads(kind, key, leaf, message, signature)
}

// Whether a signature holds for a message under a public key, which is: whether it climbs to the key's root.
pub fn holds(key: &[u8], message: &[u8], signature: &[u8]) -> bool
    ensures is { result ≡ holding sha256 key.now message.now signature.now }
    ensures climbs { Decides result (Accepted sha256 key.now message.now signature.now) }
{
    verdict(key, message, signature)
}
