// The lines of a script.
ghost use Rattle.std.specs.Prelude.{◌≡◌, length};
ghost use Rattle.std.specs.Iterator.{at_most};
ghost use Rattle.language.specs.Scripts.{left_in, GivesLine};

use octets::search::split_once;

// What is left of the script, and the number of the line that was given last, from 1.
#[derive(Drop)]
pub struct Script<'a> {
    rest: &'a [u8],
    number: usize,
}

impl<'a> Script<'a> {
    pub fn new(text: &'a [u8]) -> Script<'a>
        ensures { (left_in result ≡ text.now) × (result.number ≡ 0) }
    {
        Script {
            rest: text,
            number: 0,
        }
    }

    pub fn line_number(&self) -> usize
        ensures { result ≡ self.now.number }
    {
        self.number
    }
}

// Each line without its line feed.
impl<'a> Iterator for Script<'a> {
    type Item = &'a [u8];

    ghost next_gives = { GivesLine };

    ghost remaining = { λ s. at_most (length (left_in s)) };

    fn next(&mut self) -> Option<&'a [u8]> {
        let text = self.rest;
        if text.is_empty() {
            return None;
        }
        self.number = self.number.saturating_add(1);
        match split_once(text, b'\n') {
            Some((line, rest)) => {
                self.rest = rest;
                Some(line)
            }
            None => {
                self.rest = b"";
                Some(text)
            }
        }
    }
}
