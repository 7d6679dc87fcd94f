// The numbers of an occurrence of one entry and of an occurrence of another.
#[derive(Clone, Copy, PartialEq, Eq, Debug)]
pub struct OccurrencePair {
    pub first: u64,
    pub second: u64,
}
