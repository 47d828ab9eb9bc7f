//! The log of a shelf, which only contracts read.
ghost use Rattle.std.specs.Prelude.{List};
ghost use Rattle.std.specs.Borrow.{ftrue};
ghost use Rattle.shelf_io.specs.Reads.{Read};

use crate::read_note::ReadNote;
use crate::traits::Failed;
use std::marker::Model;

/// The reads of a shelf so far with what each answered, the newest first. Contracts see them as `reads`;
/// the program keeps nothing of them: the log takes no memory, and its calls change nothing.
///
/// The log tells the calls of `read_at`: it binds whoever reads through `Shelf` alone. What a shelf does
/// in a call, as how often and at which place it asks the system, no log says, and a proof at a shelf's
/// own type may set its log as it likes.
#[derive(Drop)]
pub struct ReadLog {
    pub ghost reads: { List Read },
}

impl Model for ReadLog {
    ghost also_owns = { λ _. ftrue };
}

impl ReadLog {
    ghost use Rattle.std.specs.Prelude.{◌≡◌, ◌≤◌, [], ◌∷◌, length, IfOk};
    ghost use Rattle.std.specs.Str.{chars};
    ghost use Rattle.shelf_io.specs.Noted.{read_of};
    ghost use Rattle.shelf_io.specs.Reads.{answered};

    /// The log of a shelf that wasn't read yet.
    pub fn new() -> ReadLog
        ensures { result.reads ≡ [] }
    {
        ReadLog {}
    }

    /// The log with this read before the others: from this place of the file of this name, with this
    /// answer and what then stands in the buffer.
    pub fn after(
        &self,
        name: &str,
        from: u64,
        answer: Result<usize, Failed>,
        buffer: &[u8],
    ) -> ReadLog
        requires { IfOk answer (λ n. n ≤ length buffer.now) }
        ensures { result.reads
            ≡ (chars name.now, from, length buffer.now, answered answer buffer.now) ∷ self.now.reads }
    {
        let bytes = match answer {
            Ok(count) => Some(&buffer[..count]),
            Err(_) => None,
        };
        self.with(&ReadNote {
            name,
            from,
            room: buffer.len(),
            bytes,
        })
    }

    /// The log with this read before the others.
    fn with(&self, _read: &ReadNote<'_>) -> ReadLog
        ensures { result.reads ≡ read_of _read.now ∷ self.now.reads }
    {
        ReadLog {}
    }
}
