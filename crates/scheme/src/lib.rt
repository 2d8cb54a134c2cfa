// Signature schemes: what every one of them promises.
#![tactic(auto)]

ghost use Rattle.std.specs.Prelude.{◌≡◌, ℕ, ◌^◌, ◌<◌, ◌≤◌, Bool, true, List, length, take, is_ok, IfOk, if◌then◌else◌};
ghost use Rattle.octets.specs.Buffers.{over};
ghost use Rattle.std.specs.Result.{result_err};
ghost use Rattle.scheme.specs.Answers.{sign_refusal};
ghost use Rattle.scheme.specs.Keytypes.{is_keytype};

pub mod limits;
pub mod refusal;

use refusal::SignRefusal;

// Keytypes, with public keys that are well formed for each; a yes or no for each keytype, public key, message and
// signature; and secrets, each with its keytype, its public key, and a signature for each leaf and message.
// Checking needs no secret.
pub trait Scheme {
    type Secret;

    // whether a public key is well formed for a keytype
    ghost formed: { List ℕ → List ℕ → Bool };

    // how long the signatures under a keytype and a public key are
    ghost size: { List ℕ → List ℕ → ℕ };

    // whether a signature holds, by keytype, public key, message and signature
    ghost holds: { List ℕ → List ℕ → List ℕ → List ℕ → Bool };

    ghost keytype_of: { Self.Secret → List ℕ };

    ghost public_key: { Self.Secret → List ℕ };

    // how many leaves a secret has
    ghost capacity: { Self.Secret → ℕ };

    // the signature by a leaf over a message
    ghost signed: { Self.Secret → ℕ → List ℕ → List ℕ };

    // Whether a public key is well formed for a keytype.
    fn is_well_formed(&self, keytype: &[u8], key: &[u8]) -> bool
        ensures { result ≡ formed keytype.now key.now };

    // Whether a signature holds. Keys and signatures of any bytes and any length are answered.
    fn check(&self, keytype: &[u8], key: &[u8], message: &[u8], signature: &[u8]) -> bool
        ensures { result ≡ holds keytype.now key.now message.now signature.now };

    fn keytype_of<'a>(&self, secret: &'a Self::Secret) -> &'a [u8]
        ensures { result.now ≡ keytype_of secret.now };

    fn public_key<'a>(&self, secret: &'a Self::Secret) -> &'a [u8]
        ensures { result.now ≡ public_key secret.now };

    // How many leaves the secret has.
    fn leaves(&self, secret: &Self::Secret) -> u32
        ensures { result ≡ capacity secret.now };

    // How long each of its signatures is.
    fn signature_len(&self, secret: &Self::Secret) -> usize
        ensures { result ≡ size (keytype_of secret.now) (public_key secret.now) };

    // Writes the signature by a leaf at the start of `out`, leaves the rest, and gives its length.
    fn sign(
        &self,
        secret: &Self::Secret,
        leaf: u32,
        message: &[u8],
        out: &mut [u8],
    ) -> Result<usize, SignRefusal>
        ensures answer { result_err result ≡ sign_refusal (length out.old) (size (keytype_of secret.now) (public_key secret.now)) leaf (capacity secret.now) }
        ensures long { IfOk result (λ n. (n ≡ size (keytype_of secret.now) (public_key secret.now)) × (n ≤ length out.old)) }
        ensures after { out.new ≡ (if is_ok result then over (signed secret.now leaf message.now) out.old else out.old) }
        ensures accepted { IfOk result (λ n. holds (keytype_of secret.now) (public_key secret.now) message.now (take n out.new) ≡ true) };

    // a well-formed key goes with a keytype, and has 1 to 64 bytes
    ghost bounded: { (w k : List ℕ) → formed w k ≡ true → (is_keytype w ≡ true) × (1 ≤ length k) × (length k ≤ 64) };

    // its signatures have 1 to 2,560 bytes
    ghost short: { (w k : List ℕ) → formed w k ≡ true → (1 ≤ size w k) × (size w k ≤ 2560) };

    // what holds has the length that follows from a well-formed key
    ghost exact: { (w k m z : List ℕ) → holds w k m z ≡ true → (formed w k ≡ true) × (length z ≡ size w k) };

    ghost own: { (s : Self.Secret) → formed (keytype_of s) (public_key s) ≡ true };

    ghost limited: { (s : Self.Secret) → (1 ≤ capacity s) × (capacity s < 2 ^ 32) };

    // what is signed with a leaf that the secret has, holds
    ghost complete: { (s : Self.Secret) (leaf : ℕ) (m : List ℕ) → leaf < capacity s → holds (keytype_of s) (public_key s) m (signed s leaf m) ≡ true };
}
