//! The files of the system.
ghost use Rattle.std.specs.Prelude.{◌≡◌, ◌≤◌, None, IfOk, length, drop};

use crate::Failed;
use std::fs::File;
use std::io;
use std::io::{Read, Seek, SeekFrom};
use std::marker::Model;
use std::rt::Files;

// The most bytes that one read gives.
const READ_LEN: usize = 16_384;

// The file that was opened last, and the place that it stands at, where that is known.
#[derive(Drop)]
struct Opened<F> {
    name: String,
    file: F,
    place: Option<u64>,
}

/// Files of the runtime, read by their paths. Nothing is told of what they hold. Contracts see how often a read was a
/// fault.
#[derive(Drop)]
pub struct RealFiles<R: Files> {
    rt: R,
    opened: Option<Opened<R::File>>,
    faults: u64,
}

impl<R: Files> Model for RealFiles<R> {
    ghost use Rattle.std.specs.Prelude.{ℕ};

    ghost Value = { ℕ };

    ghost view = { λ f. f.faults };
}

// Reads a piece of the file from byte `at` on. What stands in `buf` behind it stays. A file that stands there already is
// not moved, so that a pipe can be read from its beginning on.
fn read_piece<F: Read + Seek>(opened: &mut Opened<F>, at: u64, buf: &mut [u8]) -> io::Result<usize>
    ensures within { IfOk result (λ n. n ≤ length buf.old) }
    ensures rest_stays { IfOk result (λ n. drop n buf.new ≡ drop n buf.old) }
{
    let mut piece = [0u8; READ_LEN];
    let most = buf.len().min(READ_LEN);
    if opened.place != Some(at) {
        opened.file.seek(SeekFrom::Start(at))?;
    }
    let n = opened.file.read(&mut piece[..most])?;
    opened.place = at.checked_add(n as u64);
    buf[..n].copy_from_slice(&piece[..n]);
    Ok(n)
}

impl<R: Files + AllocGlobal> RealFiles<R> {
    /// The files of `rt`, with no fault so far.
    pub fn new(rt: R) -> RealFiles<R>
        ensures { result ≡ 0 }
    {
        RealFiles {
            rt,
            opened: None,
            faults: 0,
        }
    }

    // The file with this name, open: the one that was opened last, or a newly opened one.
    fn open(&self, name: &str, last: Option<Opened<R::File>>) -> io::Result<Opened<R::File>> {
        match last {
            Some(opened) if opened.name.as_str() == name => Ok(opened),
            _ => {
                let file = File::open(&self.rt, name)?;
                let name = String::from_str(self.rt.alloc(), name)?;
                Ok(Opened {
                    name,
                    file,
                    place: Some(0),
                })
            }
        }
    }

    // Reads a piece of the file with this name, and keeps it open.
    fn read_opened(&mut self, name: &str, at: u64, buf: &mut [u8]) -> io::Result<usize>
        ensures within { IfOk result (λ n. n ≤ length buf.old) }
        ensures rest_stays { IfOk result (λ n. drop n buf.new ≡ drop n buf.old) }
        ensures faults { self.new ≡ self.old }
    {
        let last = self.opened.take();
        let mut opened = self.open(name, last)?;
        let n = read_piece(&mut opened, at, buf)?;
        self.opened = Some(opened);
        Ok(n)
    }
}

impl<R: Files + AllocGlobal> crate::Files for RealFiles<R> {
    ghost told = { λ _. None };

    ghost faults = { λ f _. f };

    /// One read of the system's file, which is kept open until another name is read. Each `Err` on the way is a fault.
    fn read_at(&mut self, name: &str, at: u64, buf: &mut [u8]) -> Result<usize, Failed> {
        match self.read_opened(name, at, buf) {
            Ok(n) => Ok(n),
            Err(_) => {
                self.faults = self.faults.saturating_add(1);
                Err(Failed)
            }
        }
    }
}
