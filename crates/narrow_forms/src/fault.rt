//! Why a file was refused.

/// Why a file of a narrow form was refused: the line, from 1, at which no file of the form goes on.
/// A greater number than 4,294,967,295 is given as 4,294,967,295.
#[derive(Clone, Copy, Debug, PartialEq, Eq)]
pub struct LineFault {
    pub line: u32,
}
