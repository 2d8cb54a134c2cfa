// Running a script: each line is a call, and each call has its answer.
ghost use Rattle.std.specs.Prelude.{◌≡◌, ◌+◌, ◌≤◌, length, IfOk};
ghost use Rattle.std.specs.Option.{option_len};
ghost use Rattle.language.specs.Scripts.{left_in};

use crate::key_calls::Keys;
use crate::opening::Opening;
use crate::target::{NoStore, Target};
use crate::{key_calls, opening};
use language::answer::Answer;
use language::call;
use language::call::Call;
use language::mistake::Trouble;
use language::script::Script;
use line_store::LineStore;
use std::io::Write;
use table_store::TableStore;

// Answers the whole script.
pub fn run(rt: &HostRuntime, text: &[u8]) -> anyhow::Result<()> {
    let mut session = Session {
        rt,
        script: Script::new(text),
        keys: Keys::new(rt.alloc()),
    };
    let mut next = session.serve(&mut NoStore)?;
    while let Some(opening) = next {
        next = session.serve_opened(opening)?;
    }
    Ok(())
}

// What is left of a script, and the keys that it made.
#[derive(Drop)]
struct Session<'a> {
    rt: &'a HostRuntime,
    script: Script<'a>,
    keys: Keys,
}

impl<'a> Session<'a> {
    // Answers lines with a store in the memory that was made ready.
    fn serve_opened(&mut self, opening: Opening) -> anyhow::Result<Option<Opening>>
        ensures { IfOk result (λ opened. length (left_in self.new.script) + option_len opened ≤ length (left_in self.old.script)) }
    {
        match opening {
            Opening::Line { mut buffer, used } => {
                let mut store = LineStore::new(buffer.as_mut_slice());
                let _ = store.open(used);
                self.serve(&mut store)
            }
            Opening::Table {
                mut rows,
                mut block,
            } => self.serve(&mut TableStore::new(rows.as_mut_slice(), block.as_mut_slice())),
        }
    }

    // Answers lines up to the next one that opens a store, or to the script's end.
    fn serve<T: Target>(&mut self, target: &mut T) -> anyhow::Result<Option<Opening>>
        ensures { IfOk result (λ opened. length (left_in self.new.script) + option_len opened ≤ length (left_in self.old.script)) }
    {
        while let Some(line) = self.script.next() {
            let opened = self.settle(line, target)?;
            if opened.is_some() {
                return Ok(opened);
            }
        }
        Ok(None)
    }

    // Answers a line, with a message where it is no call that can be made, and prints the answer.
    fn settle<T: Target>(&mut self, line: &[u8], target: &mut T) -> anyhow::Result<Option<Opening>>
        ensures { self.new.script ≡ self.old.script }
    {
        let mut answer = Answer::new(self.rt.alloc());
        let opened = match self.reply(line, target, &mut answer) {
            Ok(opened) => opened,
            Err(trouble) => {
                answer.trouble(self.script.line_number(), trouble)?;
                None
            }
        };
        self.rt.stdout().write_all(answer.finish()?)?;
        Ok(opened)
    }

    fn reply<T: Target>(
        &mut self,
        line: &[u8],
        target: &mut T,
        answer: &mut Answer,
    ) -> Result<Option<Opening>, Trouble>
        ensures { self.new.script ≡ self.old.script }
    {
        match call::read(self.rt.alloc(), line, target.kind())? {
            Call::Nothing => {}
            Call::Open(call) => return Ok(opening::open(call, answer)?),
            Call::Hash { message } => key_calls::hash(message.as_slice(), answer)?,
            Call::Key(call) => self.keys.make(call, answer)?,
            Call::Sign { id, leaf, message } => {
                self.keys
                    .sign(id.as_slice(), leaf, message.as_slice(), answer)?
            }
            Call::Check(call) => key_calls::check(&call, answer)?,
            Call::Text => target.show_text(answer)?,
            Call::Store(call) => target.answer(call, answer)?,
        }
        Ok(None)
    }
}
