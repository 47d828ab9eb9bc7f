ghost use Rattle.std.specs.Prelude.{◌≡◌, ◌<◌, ◌≤◌, false, not, length, map, IfOk, IfSome, MatchOption};
ghost use Rattle.std.specs.List.{list_any};
ghost use Rattle.std.specs.Result.{is_ok};
ghost use Rattle.std.specs.Str.{chars};
ghost use Rattle.shelf_io.specs.Pieces.{file_named, IsPiece};
ghost use Rattle.shelf_io.specs.Held.{entry_of, has_name, IsFirst, readable, read_once, read_first, fails_next, reads_well};

use crate::mem_sink::is_listed;
use crate::read_log::ReadLog;
use crate::traits::{Failed, Shelf};
use ifc_base::{Bytes, Name, Numbers};

/// A file in memory.
#[derive(Debug, Drop)]
pub struct ShelfFile {
    /// The name by which it is read.
    pub name: Name,
    /// What it holds.
    pub bytes: Bytes,
    /// The reads so far, those that failed among them; 0 for a new file.
    pub reads: u64,
    /// The numbers, from 1, of the reads that fail.
    pub failing: Numbers,
}

/// A shelf in memory, for tests. It tells what it holds, reads as much as there is room for, and fails
/// at the reads that each file lists and where a file is missing. Of two files of one name the first
/// counts.
#[derive(Drop)]
pub struct MemShelf {
    files: Vec<ShelfFile>,
    faults: u64,
    log: ReadLog,
}

impl MemShelf {
    ghost use Rattle.std.specs.Prelude.{[]};
    ghost use Rattle.shelf_io.specs.Held.{shelf_files, entries, shelf_faults, shelf_reads};

    /// The shelf with these files, no read and no fault so far. It takes no memory. `O(1)`.
    pub fn new(files: Vec<ShelfFile>) -> MemShelf
        ensures kept { shelf_files result ≡ files.items }
        ensures files { entries result ≡ map entry_of files.items }
        ensures faults { shelf_faults result ≡ 0 }
        ensures reads { shelf_reads result ≡ [] }
    {
        MemShelf {
            files,
            faults: 0,
            log: ReadLog::new(),
        }
    }
}

/// The place of the first file of this name.
fn place(files: &[ShelfFile], name: &str) -> Option<usize>
    ensures { MatchOption result (list_any (has_name (chars name.now)) files.now ≡ false)
        (λ at. IsFirst (chars name.now) files.now at) }
{
    for at in 0..files.len() {
        if files[at].name.is(name) {
            return Some(at);
        }
    }
    None
}

/// Copies the bytes from this place on, as many as there is room for.
fn copy_out(bytes: &[u8], from: u64, into: &mut [u8]) -> usize
    ensures bound { result ≤ length into.old }
    ensures piece { IsPiece bytes.now from result into.new }
    ensures full { result ≡ readable bytes.now from (length into.old) }
{
    let start = bytes.len().min(from as usize);
    let rest = &bytes[start..];
    let count = rest.len().min(into.len());
    into[..count].copy_from_slice(&rest[..count]);
    count
}

/// Counts a read of the file, which gives its bytes from this place on unless it is one that fails.
fn read_file(file: &mut ShelfFile, from: u64, into: &mut [u8]) -> Result<usize, Failed>
    ensures counted { file.new ≡ read_once file.old }
    ensures answer { is_ok result ≡ not (fails_next file.old) }
    ensures bound { IfOk result (λ n. n ≤ length into.new) }
    ensures piece { IfOk result (λ n. IsPiece file.old.bytes from n into.new) }
    ensures full { IfOk result (λ n. n ≡ readable file.old.bytes from (length into.old)) }
{
    file.reads = file.reads.saturating_add(1);
    if is_listed(file.failing.as_slice(), file.reads) {
        return Err(Failed);
    }
    Ok(copy_out(file.bytes.as_slice(), from, into))
}

/// Reads the first file of this name, and counts the read there. A missing file fails.
fn read_named(
    files: &mut [ShelfFile],
    name: &str,
    from: u64,
    into: &mut [u8],
) -> Result<usize, Failed>
    ensures counted { files.new ≡ read_first (chars name.now) files.old }
    ensures answer { is_ok result ≡ reads_well (chars name.now) files.old }
    ensures bound { IfOk result (λ n. n ≤ length into.new) }
    ensures bytes { IfOk result (λ n. IfSome (file_named (chars name.now) (map entry_of files.old))
        (λ bytes. IsPiece bytes from n into.new)) }
    ensures full { IfOk result (λ n. IfSome (file_named (chars name.now) (map entry_of files.old))
        (λ bytes. n ≡ readable bytes from (length into.old))) }
{
    match place(files, name) {
        Some(at) => read_file(&mut files[at], from, into),
        None => Err(Failed),
    }
}

/// A read costs `O(f + n)` for `f` files and `n` bytes read.
impl Shelf for MemShelf {
    ghost use Rattle.std.specs.Prelude.{ℕ, List, ◌∷◌, Some, IsErr, OnOk, OnErr, IfSome};
    ghost use Rattle.shelf_io.specs.Causes.{HasCause, next_count};
    ghost use Rattle.shelf_io.specs.Pieces.{file_told, IsMissing};
    ghost use Rattle.shelf_io.specs.Reads.{answered};
    ghost use Rattle.shelf_io.specs.Held.{shelf_files, entries, shelf_faults, shelf_reads};
    ghost use Rattle.shelf_io.specs.Held.{reads_well, read_first, readable, IsSteady};

    ghost held = { λ s. Some (entries s) };

    ghost reads = { shelf_reads };

    ghost faults = { shelf_faults };

    ghost steady = { IsSteady };

    fn read_at(&mut self, name: &str, from: u64, into: &mut [u8]) -> Result<usize, Failed>
        ensures held { Some (entries self.new) ≡ Some (entries self.old) }
        ensures logged { shelf_reads self.new
            ≡ (chars name.now, from, length into.old, answered result into.new) ∷ shelf_reads self.old }
        ensures bound { IfOk result (λ n. n ≤ length into.new) }
        ensures bytes { IfOk result (λ n. IfSome (file_told (Some (entries self.old)) (chars name.now))
            (λ bytes. IsPiece bytes from n into.new)) }
        ensures missing { IsMissing (Some (entries self.old)) (chars name.now) → IsErr result }
        ensures cause { HasCause (shelf_faults self.old) (shelf_faults self.new) result }
        ensures calm { OnOk result (shelf_faults self.new ≡ shelf_faults self.old) }
        ensures steady { (other : List ℕ) → IsSteady self.old other → IsSteady self.new other }
        ensures sure { IsSteady self.old (chars name.now) → IsErr result
            → IsMissing (Some (entries self.old)) (chars name.now) }

        // Of this shelf is said besides which read fails, that it gives as much as there is room for, and
        // that it counts the reads, and the faults one by one.
        ensures answer { is_ok result ≡ reads_well (chars name.now) (shelf_files self.old) }
        ensures counted { shelf_files self.new ≡ read_first (chars name.now) (shelf_files self.old) }
        ensures full { IfOk result (λ n. IfSome (file_named (chars name.now) (entries self.old))
            (λ bytes. n ≡ readable bytes from (length into.old))) }
        ensures once { OnErr result (shelf_faults self.new ≡ next_count (shelf_faults self.old)) }
    {
        let answer = read_named(self.files.as_mut_slice(), name, from, into);
        self.log = self.log.after(name, from, answer, into);
        if answer.is_err() {
            self.faults = self.faults.saturating_add(1);
        }
        answer
    }
}
