//! Each public call once on its happy path, and the faults that were asked for.
ghost use Rattle.std.specs.Prelude.{◌≡◌, None};

use crate::{
    Failed, Files, MailRoom, MemFiles, MemSink, Name, RealFiles, RealSink, Sink, TwistWire, Wire,
    WireErr, write_all,
};
use std::alloc::Global;
use std::fs;
use std::test::Fail;

/// A read by the trait.
fn read<F: Files>(files: &mut F, name: &str, at: u64, buf: &mut [u8]) -> Result<usize, Failed> {
    files.read_at(name, at, buf)
}

/// A write by the trait.
fn write<S: Sink>(sink: &mut S, bytes: &[u8]) -> Result<usize, Failed> {
    sink.write(bytes)
}

#[test]
fn files_are_read_in_pieces(rt: HostRuntime) -> Result<(), Fail> {
    let mut files = MemFiles::new(rt.alloc());
    files.put("a", b"old")?;
    files.put("b", b"other")?;
    files.put("a", b"abcde")?;
    let mut buf = [0u8; 3];
    assert_eq!(rt; read(&mut files, "a", 0, &mut buf), Ok(3));
    assert_eq!(rt; &buf, b"abc");
    assert_eq!(rt; read(&mut files, "a", 3, &mut buf), Ok(2));
    assert_eq!(rt; &buf, b"dec");
    assert_eq!(rt; read(&mut files, "a", 5, &mut buf), Ok(0));
    assert_eq!(rt; read(&mut files, "a", u64::MAX, &mut buf), Ok(0));
    assert_eq!(rt; read(&mut files, "b", 2, &mut buf), Ok(3));
    assert_eq!(rt; &buf, b"her");
    Ok(())
}

#[test]
fn reads_fail_where_stated(rt: HostRuntime) -> Result<(), Fail> {
    let mut files = MemFiles::new(rt.alloc());
    files.put("a", b"abc")?;
    files.fail_at(&[1, 3])?;
    let mut buf = [0u8; 3];
    assert_eq!(rt; read(&mut files, "a", 0, &mut buf), Ok(3));
    assert_eq!(rt; read(&mut files, "a", 0, &mut buf), Err(Failed));
    assert_eq!(rt; read(&mut files, "a", 1, &mut buf), Ok(2));
    assert_eq!(rt; read(&mut files, "a", 0, &mut buf), Err(Failed));
    assert_eq!(rt; read(&mut files, "absent", 0, &mut buf), Err(Failed));
    assert_eq!(rt; read(&mut files, "a", 0, &mut buf), Ok(3));
    Ok(())
}

#[test]
fn a_sink_takes_what_has_room(rt: HostRuntime) -> Result<(), Fail> {
    let mut sink = MemSink::new(rt.alloc(), 4)?;
    sink.fail_at(&[1])?;
    assert_eq!(rt; write(&mut sink, b"abc"), Ok(3));
    assert_eq!(rt; write(&mut sink, b"de"), Err(Failed));
    assert_eq!(rt; write(&mut sink, b"de"), Ok(1));
    assert_eq!(rt; write(&mut sink, b"e"), Err(Failed));
    assert_eq!(rt; write(&mut sink, b""), Ok(0));
    assert_eq!(rt; sink.bytes(), b"abcd".as_slice());
    Ok(())
}

/// Posts a letter, takes it, and takes it again.
fn pass<W: Wire>(wire: &mut W, name: Name, bytes: &[u8], into: &mut Vec<u8>) -> Result<(), WireErr>
    requires { W.pending wire.old name ≡ None }
{
    wire.post(name, bytes)?;
    wire.take(name, into)?;
    wire.take(name, into)
}

/// A name of some letter.
fn name_of(phase: u32) -> Name {
    Name {
        phase,
        from: 1,
        to: 0,
    }
}

#[test]
fn letters_are_given_as_posted(rt: HostRuntime) -> Result<(), Fail> {
    let mut room = MailRoom::new(rt.alloc());
    let mut into = Vec::new(rt.alloc());
    assert_eq!(rt; room.pending_count(), 0);
    pass(&mut room, name_of(0), b"letter", &mut into)?;
    assert_eq!(rt; into.as_slice(), b"letter".as_slice());
    assert_eq!(rt; room.pending_count(), 0);
    Ok(())
}

#[test]
fn posts_and_takes_fail_where_stated(rt: HostRuntime) -> Result<(), Fail> {
    let name = name_of(2);
    let mut room = MailRoom::new(rt.alloc());
    let mut into = vec![in rt.alloc(); 9]?;
    room.fail_at(&[0, 2])?;
    assert_eq!(rt; room.post(name, b"one"), Err(WireErr::Failed));
    room.post(name, b"two")?;
    assert_eq!(rt; room.take(name, &mut into), Err(WireErr::Failed));
    assert!(rt; into.is_empty());
    assert_eq!(rt; room.pending_count(), 1);
    room.take(name, &mut into)?;
    assert_eq!(rt; into.as_slice(), b"two".as_slice());
    assert_eq!(rt; room.pending_count(), 0);
    Ok(())
}

#[test]
fn files_of_the_system_are_read(rt: HostRuntime) -> Result<(), Fail> {
    fs::write(&rt, "outside-test.txt", "abcdefgh")?;
    let mut files = RealFiles::new(&rt);
    let mut buf = [0u8; 3];
    assert_eq!(rt; read(&mut files, "outside-test.txt", 6, &mut buf), Ok(2));
    assert_eq!(rt; &buf[..2], b"gh".as_slice());
    assert_eq!(rt; read(&mut files, "outside-test.txt", 2, &mut buf), Ok(3));
    assert_eq!(rt; &buf, b"cde");
    assert_eq!(rt; read(&mut files, "outside-test.txt", 8, &mut buf), Ok(0));
    assert_eq!(rt; read(&mut files, "absent.txt", 0, &mut buf), Err(Failed));
    fs::remove_file(&rt, "outside-test.txt")?;
    Ok(())
}

#[test]
fn a_sink_over_a_writer_writes(rt: HostRuntime) -> Result<(), Fail> {
    let mut sink = RealSink::new(Vec::new(rt.alloc()));
    assert_eq!(rt; write(&mut sink, b"abc"), Ok(3));
    assert_eq!(rt; write(&mut sink, b""), Ok(0));
    let mut room = [0u8; 2];
    let mut full = RealSink::new(room.as_mut_slice());
    assert_eq!(rt; write(&mut full, b"abc"), Ok(2));
    assert_eq!(rt; write(&mut full, b"c"), Err(Failed));
    Ok(())
}

#[test]
fn names_are_ordered_by_phase_then_sender_then_receiver(rt: HostRuntime) -> Result<(), Fail> {
    let name = |phase, from, to| Name { phase, from, to };
    assert!(rt; name(0, 1, 1) < name(1, 0, 0));
    assert!(rt; name(0, 0, 1) < name(0, 1, 0));
    assert!(rt; name(0, 0, 0) < name(0, 0, 1));
    Ok(())
}

#[test]
fn bytes_go_on_where_the_sink_took_a_part(rt: HostRuntime) -> Result<(), Fail> {
    let mut sink = MemSink::new(rt.alloc(), 5)?;
    write_all(&mut sink, b"tpx").expect(&rt, "room");
    assert!(rt; write_all(&mut sink, b": no").is_err());
    assert_eq!(rt; sink.bytes(), b"tpx: ".as_slice());
    Ok(())
}

/// The bytes of the file, read on in pieces of the buffer until its end.
fn read_on<F: Files>(
    files: &mut F,
    name: &str,
    buf: &mut [u8],
    into: &mut Vec<u8>,
) -> Result<(), Fail> {
    for _ in 0..100 {
        match read(files, name, into.len() as u64, buf) {
            Ok(0) => return Ok(()),
            Ok(n) => into.extend_from_slice(&buf[..n.min(buf.len())])?,
            Err(Failed) => return Ok(()),
        }
    }
    Ok(())
}

#[test]
fn a_file_of_the_system_is_read_beyond_one_piece(rt: HostRuntime) -> Result<(), Fail> {
    let mut text = Vec::new(rt.alloc());
    for _ in 0..200 {
        for k in 0..=250u8 {
            text.push(k)?;
        }
    }
    fs::write(&rt, "outside-long.txt", text.as_slice())?;
    let mut files = RealFiles::new(&rt);
    let mut buf = vec![in rt.alloc(); 0u8; 40_000]?;
    let mut found = Vec::new(rt.alloc());
    read_on(&mut files, "outside-long.txt", &mut buf, &mut found)?;
    assert_eq!(rt; found.len(), text.len());
    assert!(rt; found.as_slice() == text.as_slice());
    assert!(rt; matches!(read(&mut files, "outside-long.txt", 251, &mut buf), Ok(n) if n > 2));
    assert!(rt; buf.starts_with(&[0u8, 1, 2]));
    assert!(rt; matches!(read(&mut files, "outside-long.txt", 253, &mut buf), Ok(n) if n > 2));
    assert!(rt; buf.starts_with(&[2u8, 3, 4]));
    fs::remove_file(&rt, "outside-long.txt")?;
    Ok(())
}

#[test]
fn files_whose_names_have_one_length_are_told_apart(rt: HostRuntime) -> Result<(), Fail> {
    fs::write(&rt, "outside-one.txt", "first")?;
    fs::write(&rt, "outside-two.txt", "other")?;
    let mut files = RealFiles::new(&rt);
    let mut buf = [0u8; 3];
    assert_eq!(rt; read(&mut files, "outside-one.txt", 0, &mut buf), Ok(3));
    assert_eq!(rt; &buf, b"fir");
    assert_eq!(rt; read(&mut files, "outside-two.txt", 0, &mut buf), Ok(3));
    assert_eq!(rt; &buf, b"oth");
    assert_eq!(rt; read(&mut files, "outside-one.txt", 3, &mut buf), Ok(2));
    assert_eq!(rt; &buf[..2], b"st".as_slice());
    fs::remove_file(&rt, "outside-one.txt")?;
    fs::remove_file(&rt, "outside-two.txt")?;
    Ok(())
}

/// A letter of this kind with the index 5 and these words as its numbers.
fn letter_of_kind(alloc: Global, kind: u8, words: &[u128]) -> Result<Vec<u8>, Fail> {
    let mut letter = Vec::new(alloc);
    letter.push(kind)?;
    letter.extend_from_slice(&1u64.to_le_bytes())?;
    letter.extend_from_slice(&5u64.to_le_bytes())?;
    for word in words {
        letter.extend_from_slice(&word.to_le_bytes())?;
    }
    Ok(letter)
}

/// What a wire that adds 3 gives for the letter.
fn twisted(alloc: Global, letter: &[u8]) -> Result<Vec<u8>, Fail> {
    let mut wire = TwistWire::new(alloc, 3);
    let mut into = Vec::new(alloc);
    pass(&mut wire, name_of(0), letter, &mut into)?;
    Ok(into)
}

#[test]
fn numbers_of_data_letters_are_changed(rt: HostRuntime) -> Result<(), Fail> {
    let letter = letter_of_kind(rt.alloc(), 22, &[7, 7, u128::MAX, 1])?;
    let changed = letter_of_kind(rt.alloc(), 22, &[10, 10, 2, 4])?;
    assert!(rt; twisted(rt.alloc(), &letter)?.as_slice() == changed.as_slice());
    Ok(())
}

#[test]
fn letters_of_other_kinds_are_given_as_posted(rt: HostRuntime) -> Result<(), Fail> {
    let rows = letter_of_kind(rt.alloc(), 23, &[7, 7])?;
    assert!(rt; twisted(rt.alloc(), &rows)?.as_slice() == rows.as_slice());
    assert!(rt; twisted(rt.alloc(), b"")?.is_empty());
    assert_eq!(rt;
        twisted(rt.alloc(), &[22, 1])?.as_slice(),
        [22u8, 1].as_slice()
    );
    Ok(())
}
