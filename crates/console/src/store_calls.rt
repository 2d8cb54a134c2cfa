// The calls that go to a store.
ghost use Rattle.std.specs.Prelude.{◌≡◌, ◌++◌, length, is_some, if◌then◌else◌, OnOk};
ghost use Rattle.store.specs.Answers.{get_refusal};
ghost use Rattle.store.specs.Meanings.{body_of, with};
ghost use Rattle.console.specs.Answers.{filed, got, not_filed, Replies, afterwards};

use language::answer::Answer;
use language::call::StoreCall;
use line_store::LineStore;
use std::alloc::AllocError;
use store::Store;
use store::limits::{BODY_MAX, NAME_MAX};
use store::listing::Listing;

// Makes the call, and writes its answer.
pub fn answer_store<S: Store + Listing>(
    store: &mut S,
    call: StoreCall,
    answer: &mut Answer,
) -> Result<(), AllocError>
    ensures replies { Replies (S.Store.meaning store.old) (S.Store.room store.old) call answer.old.text result answer.new.text }
    ensures meaning { S.Store.meaning store.new ≡ afterwards (S.Store.meaning store.old) (S.Store.room store.old) call }
{
    match call {
        StoreCall::File { name, body } => file(store, name.as_slice(), body.as_slice(), answer),
        StoreCall::Get { name, space } => {
            get(store, name.as_slice(), space.unwrap_or(BODY_MAX), answer)
        }
        StoreCall::Has { name } => answer.yes_or_no(store.has(name.as_slice())),
        StoreCall::Fits { name_len, body_len } => {
            answer.yes_or_no(store.fits(name_len, body_len))
        }
        StoreCall::Entries => entries(store, answer),
    }
}

// file NAME BODY
fn file<S: Store>(
    store: &mut S,
    name: &[u8],
    body: &[u8],
    answer: &mut Answer,
) -> Result<(), AllocError>
    ensures answer { OnOk result (answer.new.text ≡ answer.old.text ++ filed (not_filed (S.Store.meaning store.old) (S.Store.room store.old) name.now body.now)) }
    ensures meaning { S.Store.meaning store.new ≡ (if is_some (not_filed (S.Store.meaning store.old) (S.Store.room store.old) name.now body.now) then S.Store.meaning store.old else with (S.Store.meaning store.old) name.now body.now) }
{
    match store.file(name, body) {
        Ok(()) => answer.line("filed"),
        Err(refusal) => answer.refused(u8::from(refusal)),
    }
}

// get NAME [SIZE]
fn get<S: Store>(
    store: &S,
    name: &[u8],
    space: usize,
    answer: &mut Answer,
) -> Result<(), AllocError>
    ensures { OnOk result (answer.new.text ≡ answer.old.text ++ got (body_of (S.Store.meaning store.now name.now)) (get_refusal space name.now (is_some (S.Store.meaning store.now name.now)))) }
{
    let mut buffer = vec![in answer.heap(); 0; space]?;
    show_body(store, name, buffer.as_mut_slice(), answer)
}

fn show_body<S: Store>(
    store: &S,
    name: &[u8],
    buffer: &mut [u8],
    answer: &mut Answer,
) -> Result<(), AllocError>
    ensures { OnOk result (answer.new.text ≡ answer.old.text ++ got (body_of (S.Store.meaning store.now name.now)) (get_refusal (length buffer.old) name.now (is_some (S.Store.meaning store.now name.now)))) }
{
    match store.get(name, buffer) {
        Ok(len) => {
            answer.text("got ")?;
            answer.number(len)?;
            answer.text(" ")?;
            answer.hex_line(&buffer[..len])
        }
        Err(refusal) => answer.refused(u8::from(refusal)),
    }
}

// text
pub fn show_text(store: &LineStore, answer: &mut Answer) -> Result<(), AllocError> {
    answer.text("text ")?;
    answer.hex_line(store.text())
}

// entries
fn entries<S: Store + Listing>(store: &S, answer: &mut Answer) -> Result<(), AllocError> {
    let mut body = vec![in answer.heap(); 0; BODY_MAX]?;
    let mut name = [0; NAME_MAX];
    // by place: a store has no heap, so it writes each name into a buffer that it is lent
    // the store tells where its entries end
    for index in 0..usize::MAX {
        let Some(name_len) = store.name_at(index, &mut name) else {
            break;
        };
        show_entry(store, &name[..name_len], body.as_mut_slice(), answer)?;
    }
    answer.line("end")
}

fn show_entry<S: Store>(
    store: &S,
    name: &[u8],
    body: &mut [u8],
    answer: &mut Answer,
) -> Result<(), AllocError> {
    answer.text("entry ")?;
    answer.raw(name)?;
    answer.text(" ")?;
    match store.get(name, body) {
        Ok(len) => answer.hex_line(&body[..len]),
        // an entry that is listed has a body
        Err(_) => Ok(()),
    }
}
