// The lengths of an entry's name and body.
#[derive(Clone, Copy, PartialEq, Eq, Debug)]
pub struct Row {
    pub name: usize,
    pub body: usize,
}
