ghost use Rattle.std.specs.Prelude.{◌≡◌, ◌≤◌, ◌<◌, ◌+◌, ℕ, List, length, take, IfOk, IfSome, IsErr, IsOk, OnOk, OnErr};
ghost use Rattle.std.specs.Str.{chars};
ghost use Rattle.ifc_base.specs.Refusals.{OnFault, UnlessFault};
ghost use Rattle.shelf_io.specs.Causes.{Rose, HasCause};
ghost use Rattle.shelf_io.specs.Pieces.{file_told, IsMissing, Appended};
ghost use Rattle.shelf_io.specs.Reads.{IsReading};

use crate::traits::{Failed, Shelf, Sink};
use ifc_base::{Bytes, Refusal};
use std::alloc::Global;

/// How many bytes a read asks for at most.
const CHUNK: usize = 65536;

/// The bytes of a file, from its front, of which at most `most` are read: a caller with a limit asks
/// for one byte more than the limit, and a longer answer than the limit is a file that is too long.
///
/// It reads from the front on, each time from where it has come to, until a read answers 0 bytes or
/// `most` bytes are there, and nothing twice. `Fault(Failed)` comes only where a read failed; no
/// further one is tried then. After a refusal what was read is dropped. `O(n)` in the bytes read,
/// beside one buffer of 64 KB; the shelf is asked again after a short read, until it answers 0 bytes.
pub fn read_all<S: Shelf>(
    alloc: Global,
    shelf: &mut S,
    name: &str,
    most: usize,
) -> Result<Bytes, Refusal<Failed>>
    ensures held { S.held shelf.new ≡ S.held shelf.old }
    ensures logged { IsReading (chars name.now) most (S.reads shelf.old) (S.reads shelf.new) result }
    ensures bound { IfOk result (λ bytes. length bytes ≤ most) }
    ensures bytes { IfOk result (λ bytes. IfSome (file_told (S.held shelf.old) (chars name.now))
        (λ all. bytes ≡ take most all)) }
    ensures missing { 0 < most → IsMissing (S.held shelf.old) (chars name.now) → IsErr result }

    // A fault comes only where the count rose, and the count rises only at a fault.
    ensures later { S.faults shelf.old ≤ S.faults shelf.new }
    ensures failed { OnFault result (λ _. Rose (S.faults shelf.old) (S.faults shelf.new)) }
    ensures calm { UnlessFault result (S.faults shelf.new ≡ S.faults shelf.old) }

    ensures steady { (other : List ℕ) → S.steady shelf.old other → S.steady shelf.new other }
    ensures sure { S.steady shelf.old (chars name.now)
        → OnFault result (λ _. IsMissing (S.held shelf.old) (chars name.now)) }
{
    let mut chunk = vec![in alloc; 0u8; CHUNK]?;
    read_by(alloc, shelf, name, most, chunk.as_mut_slice())
}

/// `read_all` over this buffer, which has room.
fn read_by<S: Shelf>(
    alloc: Global,
    shelf: &mut S,
    name: &str,
    most: usize,
    chunk: &mut [u8],
) -> Result<Bytes, Refusal<Failed>>
    requires { 0 < length chunk.old }
    ensures held { S.held shelf.new ≡ S.held shelf.old }
    ensures logged { IsReading (chars name.now) most (S.reads shelf.old) (S.reads shelf.new) result }
    ensures bound { IfOk result (λ bytes. length bytes ≤ most) }
    ensures bytes { IfOk result (λ bytes. IfSome (file_told (S.held shelf.old) (chars name.now))
        (λ all. bytes ≡ take most all)) }
    ensures missing { 0 < most → IsMissing (S.held shelf.old) (chars name.now) → IsErr result }
    ensures later { S.faults shelf.old ≤ S.faults shelf.new }
    ensures failed { OnFault result (λ _. Rose (S.faults shelf.old) (S.faults shelf.new)) }
    ensures calm { UnlessFault result (S.faults shelf.new ≡ S.faults shelf.old) }
    ensures steady { (other : List ℕ) → S.steady shelf.old other → S.steady shelf.new other }
    ensures sure { S.steady shelf.old (chars name.now)
        → OnFault result (λ _. IsMissing (S.held shelf.old) (chars name.now)) }
{
    let mut bytes = Vec::new(alloc);
    while bytes.len() < most {
        let want = (most - bytes.len()).min(chunk.len());
        let count = match shelf.read_at(name, bytes.len() as u64, &mut chunk[..want]) {
            Ok(count) => count,
            Err(failed) => return Err(Refusal::Fault(failed)),
        };
        if count == 0 {
            break;
        }
        bytes.extend_from_slice(&chunk[..count])?;
    }
    Ok(Bytes::from_vec(bytes))
}

/// Writes all of the bytes, in as many pieces as the sink takes. After `Failed` a part from their
/// front was written, at least one byte less than all, and nothing behind it; no further write is tried,
/// and none once all are written. It takes no memory. `O(n)`, where the sink is called at most once for
/// each byte.
pub fn write_all<K: Sink>(sink: &mut K, bytes: &[u8]) -> Result<(), Failed>
    ensures ok { OnOk result (Appended (K.written sink.old) (K.written sink.new) bytes.now) }
    ensures err { OnErr result ((n : _) × (n < length bytes.now)
        × Appended (K.written sink.old) (K.written sink.new) (take n bytes.now)) }

    // It fails only where the count rose, and the count rises only where it fails.
    ensures cause { HasCause (K.faults sink.old) (K.faults sink.new) result }
    ensures calm { OnOk result (K.faults sink.new ≡ K.faults sink.old) }

    ensures sure { (more : ℕ) → K.sure sink.old (length bytes.now + more) → IsOk result }
    ensures left { OnOk result ((more : ℕ)
        → K.sure sink.old (length bytes.now + more) → K.sure sink.new more) }
{
    let mut at = 0;
    while at < bytes.len() {
        at += sink.write(&bytes[at..])?;
    }
    Ok(())
}
