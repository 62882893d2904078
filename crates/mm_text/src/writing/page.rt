//! A page of text on the way to a sink: what is written is held back until the page is full.
ghost use Rattle.std.specs.Prelude.{◌≡◌, ◌+◌, ◌≤◌, [], ◌++◌, length, OnOk, decimal};
ghost use Rattle.std.specs.Fmt.{signed_decimal};
ghost use Rattle.arrayvec.specs.ArrayVec.{array_vec_len};
ghost use Rattle.outside.specs.Writes.{Writes, WritesAndHolds};

use arrayvec::ArrayVec;
use itoa::Buffer;
use outside::{Sink, SinkFault, write_all};

/// The number of bytes of a page.
pub(crate) const PAGE: usize = 65_536;

/// The room that is made for a line: each line is shorter.
pub(crate) const LINE: usize = 128;

/// The text that is held back.
pub(crate) type Page = ArrayVec<u8, PAGE>;

/// Sends all that is held back.
pub(crate) fn flush<O: Sink>(out: &mut O, page: &mut Page) -> Result<(), SinkFault>
    ensures writes { Writes O.told O.faults out.old out.new page.old.items result }
    ensures empty { OnOk result (page.new.items ≡ []) }
{
    write_all(out, page.as_slice())?;
    page.clear();
    Ok(())
}

/// Makes room for a line: sends what is held back where the page is nearly full.
pub(crate) fn make_room<O: Sink>(out: &mut O, page: &mut Page) -> Result<(), SinkFault>
    ensures writes { WritesAndHolds O.told O.faults out.old out.new page.new.items page.old.items result }
    ensures room { OnOk result (array_vec_len page.new + LINE ≤ PAGE) }
{
    if page.remaining_capacity() < LINE {
        flush(out, page)?;
    }
    Ok(())
}

/// Appends bytes for which there is room.
#[inline]
pub(crate) fn push_bytes(page: &mut Page, bytes: &[u8])
    requires { array_vec_len page.old + length bytes.now ≤ PAGE }
    ensures items { page.new.items ≡ page.old.items ++ bytes.now }
    ensures len { array_vec_len page.new ≡ array_vec_len page.old + length bytes.now }
{
    let _fits = page.try_extend_from_slice(bytes);
}

/// Appends a number without sign, in decimal digits.
#[inline]
pub(crate) fn push_number(page: &mut Page, digits: &mut Buffer, number: u64)
    requires { array_vec_len page.old + 20 ≤ PAGE }
    ensures items { page.new.items ≡ page.old.items ++ decimal number }
    ensures len { array_vec_len page.new ≤ array_vec_len page.old + 20 }
{
    push_bytes(page, digits.format(number).as_bytes());
}

/// Appends a number with its sign where it is below 0, in decimal digits.
#[inline]
pub(crate) fn push_value(page: &mut Page, digits: &mut Buffer, value: i128)
    requires { array_vec_len page.old + 40 ≤ PAGE }
    ensures items { page.new.items ≡ page.old.items ++ signed_decimal value }
    ensures len { array_vec_len page.new ≤ array_vec_len page.old + 40 }
{
    push_bytes(page, digits.format(value).as_bytes());
}
