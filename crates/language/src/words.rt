// The words of a line, with one space between them.
ghost use Rattle.std.specs.Prelude.{◌≡◌, ◌+◌, ◌-◌, ◌*◌, ◌^◌, ◌<◌, true, [], ◌∷◌, length, drop, None, Ok, MatchResult, IsOkAnd};
ghost use Rattle.std.specs.Option.{SomeIff};
ghost use Rattle.language.specs.Names.{KindNamed, VerbNamed};
ghost use Rattle.language.specs.Numbers.{is_digit, number_in};
ghost use Rattle.language.specs.Spelling.{is_coded, coded_by, meant, Gives, IsSpelling};
ghost use Rattle.language.specs.Wording.{words_in, words_of, ReadsWord, IsWord, IsNumber, IsSomeNumber};
ghost use Rattle.language.specs.declared.mistake.Mistake.TheVariants.{ExtraWord};
ghost use Rattle.language.specs.declared.mistake.Trouble.TheVariants.{Script};

use crate::mistake::{Mistake, Trouble};
use crate::verb::{Kind, Verb};
use octets::hex;
use octets::search::split_once;
use std::alloc::{AllocError, Global};
use std::marker::Model;

// The words of a line that are still to come: `rest` is their text, and none once the last was taken.
#[derive(Drop)]
pub struct Words<'a> {
    heap: Global,
    rest: Option<&'a [u8]>,
}

// A contract sees the list of the words.
impl<'a> Model for Words<'a> {
    ghost use Rattle.std.specs.Prelude.{ℕ, List};
    ghost use Rattle.language.specs.Wording.{words_of};

    ghost Value = { List (List ℕ) };

    ghost view = { λ s. words_of s.rest };
}

impl<'a> Words<'a> {
    pub fn new(heap: Global, line: &'a [u8]) -> Words<'a>
        ensures { result ≡ words_in line.now }
    {
        Words {
            heap,
            rest: Some(line),
        }
    }

    // The next word, which has to be there and to have bytes.
    pub fn word(&mut self) -> Result<&'a [u8], Mistake>
        ensures takes { self.new ≡ drop 1 self.old }
        ensures reads { ReadsWord (λ m. m) self.old IsWord result }
    {
        let text = self.rest.ok_or(Mistake::MissingWord)?;
        let (word, rest) = parted(text);
        self.rest = rest;
        if word.is_empty() {
            Err(Mistake::EmptyWord)
        } else {
            Ok(word)
        }
    }

    // The bytes that the next word stands for.
    pub fn bytes(&mut self) -> Result<Vec<u8>, Trouble>
        ensures takes { self.new ≡ drop 1 self.old }
        ensures reads { ReadsWord Script self.old IsSpelling result }
    {
        let word = self.word()?;
        spelt(self.heap, word)
    }

    pub fn number(&mut self) -> Result<usize, Mistake>
        ensures takes { self.new ≡ drop 1 self.old }
        ensures reads { ReadsWord (λ m. m) self.old IsNumber result }
    {
        let word = self.word()?;
        number_of(word).ok_or(Mistake::NotANumber)
    }

    // The bytes of the last word, if there is one more; else none.
    pub fn bytes_if_any(&mut self) -> Result<Vec<u8>, Trouble>
        ensures takes { self.new ≡ drop 1 self.old }
        ensures some { 0 < length self.old → ReadsWord Script self.old IsSpelling result }
        ensures none { self.old ≡ [] → IsOkAnd result (λ v. v.items ≡ []) }
    {
        match self.rest {
            Some(_) => self.bytes(),
            None => Ok(Vec::new(self.heap)),
        }
    }

    // The number that the last word is, if there is one more.
    pub fn number_if_any(&mut self) -> Result<Option<usize>, Mistake>
        ensures takes { self.new ≡ drop 1 self.old }
        ensures some { 0 < length self.old → ReadsWord (λ m. m) self.old IsSomeNumber result }
        ensures none { self.old ≡ [] → result ≡ Ok None }
    {
        match self.rest {
            Some(_) => Ok(Some(self.number()?)),
            None => Ok(None),
        }
    }

    // The kind of store that the next word names.
    pub fn kind(&mut self) -> Result<Kind, Mistake>
        ensures takes { self.new ≡ drop 1 self.old }
        ensures reads { ReadsWord (λ m. m) self.old KindNamed result }
    {
        Kind::try_from(self.word()?)
    }

    // The call that the next word names.
    pub fn verb(&mut self) -> Result<Verb, Mistake>
        ensures takes { self.new ≡ drop 1 self.old }
        ensures reads { ReadsWord (λ m. m) self.old VerbNamed result }
    {
        Verb::try_from(self.word()?)
    }

    // There is no word left.
    #[tactic(auto, using(crate::proofs::Worded::some_word))]
    pub fn end(&self) -> Result<(), Mistake>
        ensures { MatchResult result (λ _. self.now ≡ []) (λ m. (0 < length self.now) × (m ≡ ExtraWord)) }
    {
        match self.rest {
            Some(_) => Err(Mistake::ExtraWord),
            None => Ok(()),
        }
    }
}

// The text up to the first space, and the text behind it, if there is one.
#[tactic(auto, using(crate::proofs::Worded::words_whole, crate::proofs::Worded::words_parted))]
fn parted(text: &[u8]) -> (&[u8], Option<&[u8]>)
    ensures { words_in text.now ≡ result.0.now ∷ words_of result.1 }
{
    match split_once(text, b' ') {
        Some((word, rest)) => (word, Some(rest)),
        None => (text, None),
    }
}

// The bytes that a word stands for: its own, or those that it gives in hexadecimal behind `x:`.
fn spelt(heap: Global, word: &[u8]) -> Result<Vec<u8>, Trouble>
    ensures { Gives (meant word.now) result }
{
    match word {
        [b'x', b':', digits @ ..] => decoded(heap, digits),
        _ => Ok(Vec::from_slice(heap, word)?),
    }
}

// The bytes whose hexadecimal the digits are.
fn decoded(heap: Global, digits: &[u8]) -> Result<Vec<u8>, Trouble>
    ensures { Gives (coded_by digits.now) result }
{
    if !hex::is_hex(digits) {
        return Err(Mistake::NotHexadecimal.into());
    }
    let mut bytes = vec![in heap; 0; digits.len() / 2]?;
    hex::read(bytes.as_mut_slice(), digits);
    Ok(bytes)
}

// The number that a word is; 0 of no bytes.
fn number_of(word: &[u8]) -> Option<usize>
    ensures { result ≡ number_in word.now }
{
    let mut n = 0;
    for digit in word {
        n = with_digit(n, *digit)?;
    }
    Some(n)
}

// The number with one more decimal digit behind it.
fn with_digit(n: usize, digit: u8) -> Option<usize>
    ensures { SomeIff result ((is_digit digit ≡ true) × (n * 10 + (digit - 48) < 2 ^ 64)) (n * 10 + (digit - 48)) }
{
    match digit {
        b'0'..=b'9' => n.checked_mul(10)?.checked_add(usize::from(digit - b'0')),
        _ => None,
    }
}
