// The calls of a script, with what their words stand for.
ghost use Rattle.std.specs.Prelude.{◌≡◌, true, IfOk, IfErr, Ok};
ghost use Rattle.std.specs.Result.{result_err};
ghost use Rattle.language.specs.Calls.{HasVerb, StandsFor, arguments, open_arguments, StopsIn, wants, OpenFails, CallFails, is_note, Makes, Refuses};
ghost use Rattle.language.specs.Names.{barred};

use crate::mistake::{Mistake, Trouble};
use crate::verb::{Kind, Verb};
use crate::words::Words;
use std::alloc::Global;

#[derive(Drop)]
pub enum Call {
    // an empty line, or a comment
    Nothing,
    Open(OpenCall),
    Hash {
        message: Vec<u8>,
    },
    Key(KeyCall),
    Sign {
        id: Vec<u8>,
        leaf: usize,
        message: Vec<u8>,
    },
    Check(CheckCall),
    Text,
    Store(StoreCall),
}

// What is opened.
#[derive(Drop)]
pub enum OpenCall {
    Line { size: usize, text: Vec<u8> },
    Table { rows: usize, bytes: usize },
}

// What a key is made from.
#[derive(Drop)]
pub struct KeyCall {
    pub id: Vec<u8>,
    pub keytype: Vec<u8>,
    pub number: usize,
    pub identifier: Vec<u8>,
    pub seed: Vec<u8>,
}

// What is checked.
#[derive(Drop)]
pub struct CheckCall {
    pub keytype: Vec<u8>,
    pub public: Vec<u8>,
    pub message: Vec<u8>,
    pub signature: Vec<u8>,
}

// A call that every store answers.
#[derive(Drop)]
pub enum StoreCall {
    File { name: Vec<u8>, body: Vec<u8> },
    // `space` is the buffer's size, if it is given
    Get { name: Vec<u8>, space: Option<usize> },
    Has { name: Vec<u8> },
    Fits { name_len: usize, body_len: usize },
    Entries,
}

// The call that a line makes while a store of this kind, or none, is open.
pub fn read(heap: Global, line: &[u8], kind: Option<Kind>) -> Result<Call, Trouble>
    ensures call { IfOk result (Makes kind line.now) }
    ensures refusal { IfErr result (Refuses kind line.now) }
    ensures note { is_note line.now ≡ true → result ≡ Ok Call.Nothing }
{
    if let [] | [b'#', ..] = line {
        return Ok(Call::Nothing);
    }
    let mut words = Words::new(heap, line);
    let verb = words.verb()?;
    allowed(verb, kind)?;
    let call = asked(verb, &mut words)?;
    words.end()?;
    Ok(call)
}

// Whether a call can be made, whatever its words are: one that goes to a store needs a store, and a
// text is only a line store's.
fn allowed(verb: Verb, kind: Option<Kind>) -> Result<(), Mistake>
    ensures { result_err result ≡ barred verb kind }
{
    match (verb, kind) {
        (Verb::Open | Verb::Hash | Verb::Key | Verb::Sign | Verb::Check, _) => Ok(()),
        (_, None) => Err(Mistake::NoStore),
        (Verb::Text, Some(Kind::Table)) => Err(Mistake::NoText),
        _ => Ok(()),
    }
}

// The call of this name, with what the words behind the name stand for.
fn asked(verb: Verb, words: &mut Words) -> Result<Call, Trouble>
    ensures ok { IfOk result (λ call. HasVerb call verb × StandsFor (arguments call) words.old words.new) }
    ensures err { IfErr result (CallFails verb words.old) }
{
    Ok(match verb {
        Verb::Open => Call::Open(open(words)?),
        Verb::Hash => Call::Hash {
            message: words.bytes()?,
        },
        Verb::Key => Call::Key(key(words)?),
        Verb::Sign => Call::Sign {
            id: words.bytes()?,
            leaf: words.number()?,
            message: words.bytes()?,
        },
        Verb::Check => Call::Check(check(words)?),
        Verb::Text => Call::Text,
        Verb::File => Call::Store(StoreCall::File {
            name: words.bytes()?,
            body: words.bytes()?,
        }),
        Verb::Get => Call::Store(StoreCall::Get {
            name: words.bytes()?,
            space: words.number_if_any()?,
        }),
        Verb::Has => Call::Store(StoreCall::Has {
            name: words.bytes()?,
        }),
        Verb::Fits => Call::Store(StoreCall::Fits {
            name_len: words.number()?,
            body_len: words.number()?,
        }),
        Verb::Entries => Call::Store(StoreCall::Entries),
    })
}

fn open(words: &mut Words) -> Result<OpenCall, Trouble>
    ensures ok { IfOk result (λ call. StandsFor (open_arguments call) words.old words.new) }
    ensures err { IfErr result (OpenFails words.old) }
{
    Ok(match words.kind()? {
        Kind::Line => OpenCall::Line {
            size: words.number()?,
            text: words.bytes_if_any()?,
        },
        Kind::Table => OpenCall::Table {
            rows: words.number()?,
            bytes: words.number()?,
        },
    })
}

fn key(words: &mut Words) -> Result<KeyCall, Trouble>
    ensures ok { IfOk result (λ call. StandsFor (arguments (Call.Key call)) words.old words.new) }
    ensures err { IfErr result (StopsIn (wants Verb.Key) words.old) }
{
    Ok(KeyCall {
        id: words.bytes()?,
        keytype: words.bytes()?,
        number: words.number()?,
        identifier: words.bytes()?,
        seed: words.bytes()?,
    })
}

fn check(words: &mut Words) -> Result<CheckCall, Trouble>
    ensures ok { IfOk result (λ call. StandsFor (arguments (Call.Check call)) words.old words.new) }
    ensures err { IfErr result (StopsIn (wants Verb.Check) words.old) }
{
    Ok(CheckCall {
        keytype: words.bytes()?,
        public: words.bytes()?,
        message: words.bytes()?,
        signature: words.bytes()?,
    })
}
