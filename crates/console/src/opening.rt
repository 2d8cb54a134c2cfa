// The calls that open a store.
ghost use Rattle.std.specs.Prelude.{◌≡◌, ◌++◌, IfOk, OnSome, codes};
ghost use Rattle.language.specs.Writing.{line_of};

use language::answer::Answer;
use language::call::OpenCall;
use line_store::LineStore;
use std::alloc::{AllocError, Global};
use table_store::table::Row;

// The memory of a store that is to be open next. A line store lies in one buffer, of which `used` bytes
// are its text, since it works in the memory that it is lent.
#[derive(Drop)]
pub enum Opening {
    Line { buffer: Vec<u8>, used: usize },
    Table { rows: Vec<Row>, block: Vec<u8> },
}

// Makes memory ready, and tries a text in it, so that a refusal leaves the open store as it is.
pub fn open(call: OpenCall, answer: &mut Answer) -> Result<Option<Opening>, AllocError>
    ensures { IfOk result (λ opening. OnSome opening (answer.new.text ≡ answer.old.text ++ line_of (codes "opened"))) }
{
    let mut opening = memory(answer.heap(), call)?;
    if let Opening::Line { buffer, used } = &mut opening
        && let Err(refusal) = LineStore::new(buffer.as_mut_slice()).open(*used)
    {
        answer.refused(u8::from(refusal))?;
        return Ok(None);
    }
    answer.line("opened")?;
    Ok(Some(opening))
}

fn memory(heap: Global, call: OpenCall) -> Result<Opening, AllocError> {
    Ok(match call {
        OpenCall::Line { size, text } => Opening::Line {
            buffer: filled(heap, size, text.as_slice())?,
            used: text.len(),
        },
        OpenCall::Table { rows, bytes } => Opening::Table {
            rows: vec![in heap; Row { name: 0, body: 0 }; rows]?,
            block: vec![in heap; 0; bytes]?,
        },
    })
}

// A buffer of zeros that begins with as much of the text as there is space for.
fn filled(heap: Global, size: usize, text: &[u8]) -> Result<Vec<u8>, AllocError> {
    let mut buffer = vec![in heap; 0; size]?;
    let whole = buffer.as_mut_slice();
    let kept = text.len().min(whole.len());
    whole[..kept].copy_from_slice(&text[..kept]);
    Ok(buffer)
}
