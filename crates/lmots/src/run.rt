// What a chain is taken through.

// A chain, the step that it goes on with, and how many steps it takes. Runs are ordered by their lengths.
#[derive(Clone, Copy, PartialEq, Eq, PartialOrd, Ord)]
pub(crate) struct Run {
    pub(crate) steps: u8,
    pub(crate) chain: u8,
    pub(crate) first: u8,
}
