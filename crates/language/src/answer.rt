// The text of an answer.
ghost use Rattle.std.specs.Prelude.{◌≡◌, true, false, [], IfOk, IsErrOf, MatchResult, decimal};
ghost use Rattle.std.specs.String.{string_bytes};
ghost use Rattle.octets.specs.Hex.{hex as hex_of};
ghost use Rattle.language.specs.Written.{Writes};
ghost use Rattle.language.specs.Writing.{Tells, line_of, yes_or_no, refusal, coded};

use crate::mistake::Trouble;
use octets::hex;
use std::alloc::{AllocError, Global};
use std::marker::Model;

// What was written so far. Each writer sets its bytes behind those that are there, unless memory
// runs out: then some of them may be missing, and the answer is marked and has no whole text any more.
#[derive(Drop)]
pub struct Answer {
    heap: Global,
    bytes: Vec<u8>,
    whole: bool,
}

// A contract sees an answer as its bytes, and whether none is missing.
impl Model for Answer {
    ghost use Rattle.language.specs.Written.{Written};

    ghost Value = { Written };

    ghost view = { λ a. record { text = a.bytes.items; whole = a.whole } };
}

impl Answer {
    pub fn new(heap: Global) -> Answer
        ensures { (result.text ≡ []) × (result.whole ≡ true) }
    {
        Answer {
            heap,
            bytes: Vec::new(heap),
            whole: true,
        }
    }

    // The memory that the answer is made in.
    pub fn heap(&self) -> Global {
        self.heap
    }

    // Memory ran out for what was to be written.
    pub fn run_out(&mut self)
        ensures { self.new.whole ≡ false }
    {
        self.whole = false;
    }

    // The whole text, unless memory ran out.
    pub fn finish(&self) -> Result<&[u8], AllocError>
        ensures { MatchResult result (λ t. (self.now.whole ≡ true) × (t.now ≡ self.now.text)) (λ _. self.now.whole ≡ false) }
    {
        if self.whole {
            Ok(self.bytes.as_slice())
        } else {
            Err(AllocError)
        }
    }

    pub fn raw(&mut self, bytes: &[u8]) -> Result<(), AllocError>
        ensures { Writes self.old self.new bytes.now result }
    {
        let added = self.bytes.extend_from_slice(bytes);
        if added.is_err() {
            self.run_out();
        }
        added
    }

    pub fn text(&mut self, text: &str) -> Result<(), AllocError>
        ensures { Writes self.old self.new text.now result }
    {
        self.raw(text.as_bytes())
    }

    pub fn line(&mut self, text: &str) -> Result<(), AllocError>
        ensures { Writes self.old self.new (line_of text.now) result }
    {
        self.text(text)?;
        self.text("\n")
    }

    pub fn yes_or_no(&mut self, yes: bool) -> Result<(), AllocError>
        ensures { Writes self.old self.new (yes_or_no yes) result }
    {
        self.line(if yes { "yes" } else { "no" })
    }

    pub fn number(&mut self, n: usize) -> Result<(), AllocError>
        ensures { Writes self.old self.new (decimal n) result }
    {
        let digits = format!(in self.heap; "{n}");
        self.made(digits)
    }

    pub fn refused(&mut self, number: u8) -> Result<(), AllocError>
        ensures { Writes self.old self.new (refusal number) result }
    {
        let line = format!(in self.heap; "refused {number}\n");
        self.made(line)
    }

    // Why the line of this number is not answered.
    pub fn trouble(&mut self, line_number: usize, trouble: Trouble) -> Result<(), AllocError>
        ensures { Tells self.old self.new line_number trouble result }
    {
        match trouble {
            Trouble::Script(mistake) => {
                let line = format!(in self.heap; "line {line_number}: {mistake}\n");
                self.made(line)
            }
            Trouble::Memory(error) => self.made(Err(error)),
        }
    }

    // Writes a text, if there was memory to make it.
    fn made(&mut self, text: Result<String, AllocError>) -> Result<(), AllocError>
        ensures { MatchResult text (λ t. Writes self.old self.new (string_bytes t) result) (λ e. (self.new.whole ≡ false) × IsErrOf result e) }
    {
        match text {
            Ok(text) => self.text(text.as_str()),
            Err(error) => {
                self.run_out();
                Err(error)
            }
        }
    }

    fn digits(&mut self, bytes: &[u8]) -> Result<(), AllocError>
        ensures { Writes self.old self.new (hex_of bytes.now) result }
    {
        match digits_of(self.heap, bytes) {
            Ok(digits) => self.raw(digits.as_slice()),
            Err(error) => {
                self.run_out();
                Err(error)
            }
        }
    }

    // The digits of the bytes, as the end of a line.
    pub fn digits_line(&mut self, bytes: &[u8]) -> Result<(), AllocError>
        ensures { Writes self.old self.new (line_of (hex_of bytes.now)) result }
    {
        self.digits(bytes)?;
        self.text("\n")
    }

    // The bytes as the last word of a line: `x:` and their digits.
    pub fn hex_line(&mut self, bytes: &[u8]) -> Result<(), AllocError>
        ensures { Writes self.old self.new (coded bytes.now) result }
    {
        self.text("x:")?;
        self.digits_line(bytes)
    }
}

fn digits_of(heap: Global, bytes: &[u8]) -> Result<Vec<u8>, AllocError>
    ensures { IfOk result (λ v. v.items ≡ hex_of bytes.now) }
{
    let mut digits = vec![in heap; 0; 2 * bytes.len()]?;
    hex::write(digits.as_mut_slice(), bytes);
    Ok(digits)
}
