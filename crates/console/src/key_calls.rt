// The calls of hashes, keys and signatures.
ghost use Rattle.std.specs.Prelude.{◌≡◌, ◌++◌, ◌&&◌, ◌||◌, ◌==◌, codes, is_some, IfErr, OnOk, Some};
ghost use Rattle.std.specs.Str.{bytes_eq};
ghost use Rattle.std.specs.HashMap.{Updates};
ghost use Rattle.std.specs.declared.boxed.Box.{Box};
ghost use Rattle.std.specs.declared.alloc.Global.{Global};
ghost use Rattle.hash_based.specs.Joined.{word_of, public_of};
ghost use Rattle.hash_based.specs.declared.secret.HashBasedSecret.{HashBasedSecret};
ghost use Rattle.language.specs.declared.mistake.Trouble.TheVariants.{Script};
ghost use Rattle.console.specs.Answers.{hashed, checked, made, MakesNoKey};

use hash_based::HashBased;
use hash_based::secret::HashBasedSecret;
use language::answer::Answer;
use language::call::{CheckCall, KeyCall};
use language::mistake::{Mistake, Trouble};
use lmots::secret::OneTimeSecret;
use lms::kind::LmsType;
use lms::secret::TreeSecret;
use scheme::Scheme;
use scheme::limits::SIGNATURE_MAX;
use std::alloc::{AllocError, Global};
use std::collections::HashMap;

// hash BYTES
pub fn hash(message: &[u8], answer: &mut Answer) -> Result<(), AllocError>
    ensures { OnOk result (answer.new.text ≡ answer.old.text ++ hashed message.now) }
{
    answer.text("sha256 ")?;
    answer.digits_line(&sha256::digest(message))
}

// check KEYTYPE PUBLIC BYTES SIGNATURE
pub fn check(call: &CheckCall, answer: &mut Answer) -> Result<(), AllocError>
    ensures { OnOk result (answer.new.text ≡ answer.old.text ++ checked call.now.keytype.items call.now.public.items call.now.message.items call.now.signature.items) }
{
    let keytype = call.keytype.as_slice();
    let public = call.public.as_slice();
    if !HashBased.is_well_formed(keytype, public) {
        answer.line("ill-formed")
    } else if HashBased.check(
        keytype,
        public,
        call.message.as_slice(),
        call.signature.as_slice(),
    ) {
        answer.line("holds")
    } else {
        answer.line("fails")
    }
}

// The keys of a script by their IDs. An ID that is given again means the key made last.
#[derive(Drop)]
pub struct Keys {
    heap: Global,
    secrets: HashMap<Vec<u8>, Box<HashBasedSecret>>,
}

impl Keys {
    pub fn new(heap: Global) -> Keys {
        Keys {
            heap,
            secrets: HashMap::new(heap),
        }
    }

    // key ID KEYTYPE TYPE I SEED
    pub fn make(&mut self, call: KeyCall, answer: &mut Answer) -> Result<(), Trouble>
        // the key whose public key is told is the one that is kept
        ensures kept { OnOk result ((kept : Box HashBasedSecret Global) × Updates ⟦<Vec<u8> as PartialEq>⟧.eq self.old.secrets self.new.secrets call.id (Some kept) × (answer.new.text ≡ answer.old.text ++ made (word_of kept.value) (public_of kept.value))) }
        ensures none { IfErr result (MakesNoKey call) }
    {
        let secret = Box::new(self.heap, secret_of(&call)?)?;
        tell(&secret, answer)?;
        self.secrets.insert(call.id, secret)?;
        Ok(())
    }

    // sign ID LEAF BYTES
    pub fn sign(
        &self,
        id: &[u8],
        leaf: usize,
        message: &[u8],
        answer: &mut Answer,
    ) -> Result<(), Trouble> {
        let secret = self.secrets.get(id).ok_or(Mistake::UnknownKey)?;
        // no key has a leaf past the greatest number
        let leaf = u32::try_from(leaf).unwrap_or(u32::MAX);
        let mut buffer = [0; SIGNATURE_MAX];
        match HashBased.sign(secret, leaf, message, &mut buffer) {
            Ok(len) => {
                answer.text("signature ")?;
                answer.hex_line(&buffer[..len])?;
            }
            Err(refusal) => answer.refused(u8::from(refusal))?,
        }
        Ok(())
    }
}

// The keytype and the public key of a secret.
fn tell(secret: &HashBasedSecret, answer: &mut Answer) -> Result<(), AllocError>
    ensures { OnOk result (answer.new.text ≡ answer.old.text ++ made (word_of secret.now) (public_of secret.now)) }
{
    answer.text("public ")?;
    answer.raw(HashBased.keytype_of(secret))?;
    answer.text(" ")?;
    answer.hex_line(HashBased.public_key(secret))
}

// The secret of a keytype, the number of a type, an identifier and a seed.
fn secret_of(call: &KeyCall) -> Result<HashBasedSecret, Mistake>
    ensures { IfErr result (λ m. MakesNoKey call.now (Script m)) }
{
    let (Some((id, [])), Some((seed, []))) = (
        call.identifier.as_slice().split_first_chunk::<16>(),
        call.seed.as_slice().split_first_chunk::<32>(),
    ) else {
        return Err(Mistake::NotAKey);
    };
    let keytype = call.keytype.as_slice();
    if keytype == lmots::one_time::KEYTYPE && call.number == lmots::signing::TYPE as usize {
        return Ok(HashBasedSecret::OneTime(OneTimeSecret::new(id, seed)));
    }
    let kind = tree_type(keytype, call.number).ok_or(Mistake::UnknownKeytype)?;
    Ok(HashBasedSecret::Tree(TreeSecret::new(kind, id, seed)))
}

fn tree_type(keytype: &[u8], number: usize) -> Option<LmsType>
    ensures { is_some result ≡ (bytes_eq keytype.now (codes "lms") && (number == 5 || number == 6)) }
{
    if keytype == lms::many_time::KEYTYPE {
        LmsType::try_from(u32::try_from(number).ok()?).ok()
    } else {
        None
    }
}
