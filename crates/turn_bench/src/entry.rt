/// One item of a log.
#[derive(Clone, Copy, Debug, PartialEq, Eq)]
pub struct Entry {
    /// The number of the caller that added it.
    pub caller: u32,
    /// What was added.
    pub item: u64,
}
