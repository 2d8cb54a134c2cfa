// What the calls of a script go to: the store that is open, or none.
use crate::store_calls;
use language::answer::Answer;
use language::call::StoreCall;
use language::verb::Kind;
use line_store::LineStore;
use std::alloc::AllocError;
use table_store::TableStore;

pub trait Target {
    // The kind of the open store.
    fn kind(&self) -> Option<Kind>;

    // A call that every store answers.
    fn answer(&mut self, _call: StoreCall, _answer: &mut Answer) -> Result<(), AllocError> {
        // never asked where no store is open: `language::call::read` refuses the call
        Ok(())
    }

    // text
    fn show_text(&self, _answer: &mut Answer) -> Result<(), AllocError> {
        // never asked but of a line store, for the same reason
        Ok(())
    }
}

// Before a store is open.
#[derive(Clone, Copy)]
pub struct NoStore;

impl Target for NoStore {
    fn kind(&self) -> Option<Kind> {
        None
    }
}

impl<'a> Target for LineStore<'a> {
    fn kind(&self) -> Option<Kind> {
        Some(Kind::Line)
    }

    fn answer(&mut self, call: StoreCall, answer: &mut Answer) -> Result<(), AllocError> {
        store_calls::answer_store(self, call, answer)
    }

    fn show_text(&self, answer: &mut Answer) -> Result<(), AllocError> {
        store_calls::show_text(self, answer)
    }
}

impl<'a> Target for TableStore<'a> {
    fn kind(&self) -> Option<Kind> {
        Some(Kind::Table)
    }

    fn answer(&mut self, call: StoreCall, answer: &mut Answer) -> Result<(), AllocError> {
        store_calls::answer_store(self, call, answer)
    }
}
