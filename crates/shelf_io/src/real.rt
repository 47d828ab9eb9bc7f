ghost use Rattle.std.specs.Prelude.{◌≡◌, ◌≤◌, None, length, IfOk};

use crate::read_log::ReadLog;
use crate::traits::{Failed, Shelf, Sink};
use ifc_base::Name;
use std::fs::File;
use std::io;
use std::io::Write;
use std::os::unix::fs::FileExt;

/// The files of the system, by path. It tells nothing of what they hold; an error of the system is a
/// fault. The file that was read last stays open, so that a file which is read piece by piece is opened
/// once, and is read on as the one that was opened where the path leads elsewhere meanwhile.
#[derive(Drop)]
pub struct FileShelf {
    rt: HostRuntime,
    last: Option<OpenFile>,
    faults: u64,
    log: ReadLog,
}

/// A file that is open, and the path by which it was opened.
#[derive(Drop)]
struct OpenFile {
    name: Name,
    file: File,
}

impl FileShelf {
    ghost use Rattle.std.specs.Prelude.{[]};
    ghost use Rattle.shelf_io.specs.Real.{file_faults, file_reads};

    /// The shelf over this runtime, with no read and no fault so far. It takes no memory. `O(1)`.
    pub fn new(rt: HostRuntime) -> FileShelf
        ensures faults { file_faults result ≡ 0 }
        ensures reads { file_reads result ≡ [] }
    {
        FileShelf {
            rt,
            last: None,
            faults: 0,
            log: ReadLog::new(),
        }
    }
}

/// Reads by the open file if it has this name, and else opens the one of this name and keeps it open,
/// unless there is no memory to keep its name.
fn read_open(
    rt: &HostRuntime,
    last: &mut Option<OpenFile>,
    name: &str,
    from: u64,
    into: &mut [u8],
) -> io::Result<usize>
    ensures { IfOk result (λ n. n ≤ length into.new) }
{
    if let Some(open) = last {
        if open.name.is(name) {
            return open.file.read_at(into, from);
        }
    }
    let file = File::open(rt, name)?;
    let count = file.read_at(into, from)?;
    *last = match Name::from_str(rt.alloc(), name) {
        Ok(name) => Some(OpenFile { name, file }),
        Err(_) => None,
    };
    Ok(count)
}

/// A read asks the system once, and opens the file first where it isn't the one that was read last.
impl Shelf for FileShelf {
    ghost use Rattle.shelf_io.specs.Real.{file_faults, file_reads};

    ghost held = { λ _. None };

    ghost reads = { file_reads };

    ghost faults = { file_faults };

    fn read_at(&mut self, name: &str, from: u64, into: &mut [u8]) -> Result<usize, Failed> {
        let answer = match read_open(&self.rt, &mut self.last, name, from, into) {
            Ok(count) => Ok(count),
            Err(_) => {
                self.last = None;
                self.faults = self.faults.saturating_add(1);
                Err(Failed)
            }
        };
        self.log = self.log.after(name, from, answer, into);
        answer
    }
}

/// Standard output. It tells nothing of what was written; an error of the system is a fault.
#[derive(Drop)]
pub struct OutSink {
    rt: HostRuntime,
    faults: u64,
}

impl OutSink {
    ghost use Rattle.shelf_io.specs.Real.{out_faults};

    /// The sink over this runtime, with no fault so far. It takes no memory. `O(1)`.
    pub fn new(rt: HostRuntime) -> OutSink
        ensures { out_faults result ≡ 0 }
    {
        OutSink { rt, faults: 0 }
    }
}

/// A write asks the system once, without a buffer of its own.
impl Sink for OutSink {
    ghost use Rattle.shelf_io.specs.Real.{out_faults};

    ghost written = { λ _. None };

    ghost faults = { out_faults };

    fn write(&mut self, bytes: &[u8]) -> Result<usize, Failed> {
        if bytes.is_empty() {
            return Ok(0);
        }
        match self.rt.stdout().write(bytes) {
            Ok(count) if count > 0 => Ok(count),
            _ => {
                self.faults = self.faults.saturating_add(1);
                Err(Failed)
            }
        }
    }
}
