// A local reference as a mark: a plain number.
#[derive(Clone, Copy, PartialEq, Eq, Debug)]
pub struct Reference {
    pub number: u32,
}
