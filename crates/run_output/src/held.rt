//! Text that is held back until there is enough of it for a write.
ghost use Rattle.std.specs.Prelude.{◌≡◌, [], ◌++◌, OnOk};
ghost use Rattle.outside.specs.Writes.{Writes, WritesAndHolds};
ghost use Rattle.run_output.specs.Pieces.{joined};

use arrayvec::ArrayVec;
use outside::{Sink, SinkFault, write_all};

/// The most bytes that are held back.
const ROOM: usize = 65_536;

/// The text that is held back.
pub(crate) type Held = ArrayVec<u8, ROOM>;

/// Sends all that is held back.
pub(crate) fn flush<O: Sink>(out: &mut O, held: &mut Held) -> Result<(), SinkFault>
    ensures writes { Writes O.told O.faults out.old out.new held.old.items result }
    ensures empty { OnOk result (held.new.items ≡ []) }
{
    write_all(out, held.as_slice())?;
    held.clear();
    Ok(())
}

/// Appends bytes where nothing is held back; sends them where they have no room.
fn put_first<O: Sink>(out: &mut O, held: &mut Held, bytes: &[u8]) -> Result<(), SinkFault>
    requires { held.old.items ≡ [] }
    ensures { WritesAndHolds O.told O.faults out.old out.new held.new.items bytes.now result }
{
    if bytes.len() <= held.remaining_capacity() {
        let _fits = held.try_extend_from_slice(bytes);
        return Ok(());
    }
    write_all(out, bytes)
}

/// Appends bytes; where they have no room beside what is held back, sends that before.
pub(crate) fn put<O: Sink>(out: &mut O, held: &mut Held, bytes: &[u8]) -> Result<(), SinkFault>
    ensures { WritesAndHolds O.told O.faults out.old out.new held.new.items (held.old.items ++ bytes.now) result }
{
    if bytes.len() <= held.remaining_capacity() {
        let _fits = held.try_extend_from_slice(bytes);
        return Ok(());
    }
    flush(out, held)?;
    put_first(out, held, bytes)
}

/// Appends these texts, one after the other.
pub(crate) fn put_pieces<O: Sink>(
    out: &mut O,
    held: &mut Held,
    pieces: &[&str],
) -> Result<(), SinkFault>
    ensures { WritesAndHolds O.told O.faults out.old out.new held.new.items (held.old.items ++ joined pieces.now) result }
{
    for piece in pieces {
        put(out, held, piece.as_bytes())?;
    }
    Ok(())
}
