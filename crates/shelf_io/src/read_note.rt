/// A read and its answer, for the log of a shelf.
#[derive(Clone, Copy, Drop)]
pub(crate) struct ReadNote<'a> {
    /// The name that was asked for.
    pub(crate) name: &'a str,
    /// The place from which the file was to be read.
    pub(crate) from: u64,
    /// How many bytes there was room for.
    pub(crate) room: usize,
    /// The bytes that were answered, or None where the read failed.
    pub(crate) bytes: Option<&'a [u8]>,
}
