//! The lines of a recording, written.

use pz_base::listed::Listed;
use pz_base::text::Text;
use pz_case::item::{FrameKind, Item, Verdict};
use pz_case::recording::{Record, Recording};
use pz_json_text::quoted::QuotedText;
use pz_lines::fault::{Cause, WriteFault};
use pz_lines::output::Output;
use pz_lines::writing::write_recording;
use std::alloc::{AllocError, Global};
use std::io;
use std::io::Write;
use std::test::Fail;

/// Takes seven bytes a call, except for the fourth call, which fails. It counts its calls, those after the fourth too.
#[derive(Drop)]
pub(crate) struct Failing {
    pub(crate) bytes: Vec<u8>,
    pub(crate) calls: u32,
}

impl Write for Failing {
    fn write(&mut self, buf: &[u8]) -> io::Result<usize> {
        self.calls = self.calls.saturating_add(1);
        if self.calls == 4 {
            return Err(io::Error::from(io::ErrorKind::BrokenPipe));
        }
        let count = buf.len().min(7);
        self.bytes.extend_from_slice(&buf[..count])?;
        Ok(count)
    }

    fn flush(&mut self) -> io::Result<()> {
        Ok(())
    }
}

/// Takes nothing at its first call, and then all. It counts its calls.
#[derive(Drop)]
struct Full {
    calls: u32,
}

impl Write for Full {
    fn write(&mut self, buf: &[u8]) -> io::Result<usize> {
        self.calls = self.calls.saturating_add(1);
        Ok(if self.calls == 1 { 0 } else { buf.len() })
    }

    fn flush(&mut self) -> io::Result<()> {
        Ok(())
    }
}

/// Takes one byte a call, up to the call of a number, counted from 0, which fails or takes nothing. It counts all its calls.
#[derive(Drop)]
struct Cut {
    bytes: Vec<u8>,
    calls: usize,
    ends_at: usize,
    fails: bool,
}

impl Write for Cut {
    fn write(&mut self, buf: &[u8]) -> io::Result<usize> {
        let at = self.calls;
        self.calls = at.saturating_add(1);
        if at == self.ends_at && self.fails {
            return Err(io::Error::from(io::ErrorKind::BrokenPipe));
        }
        if at == self.ends_at || buf.is_empty() {
            return Ok(0);
        }
        self.bytes.push(buf[0])?;
        Ok(1)
    }

    fn flush(&mut self) -> io::Result<()> {
        Ok(())
    }
}

/// A writer that takes so many bytes at most, and notes how many it was lent.
#[derive(Drop)]
struct Noting {
    lent: Vec<usize>,
    most: usize,
}

impl Write for Noting {
    fn write(&mut self, buf: &[u8]) -> io::Result<usize> {
        self.lent.push(buf.len())?;
        Ok(buf.len().min(self.most))
    }

    fn flush(&mut self) -> io::Result<()> {
        Ok(())
    }
}

fn frame(alloc: Global, number: u64, kind: FrameKind, level: &str) -> Result<Item, AllocError> {
    let level_text = QuotedText::of_str(alloc, level)?;
    Ok(Item::Frame {
        number,
        kind,
        at: number,
        level_text,
    })
}

/// The walk of two steps against a wall.
fn walk(alloc: Global) -> Result<Recording, AllocError> {
    let start = "background wall:0,background player:1,background:2,0,\n";
    let end = "background wall:0,background:1,background player:2,0,\n";
    let mut items = Vec::new(alloc);
    items.push(frame(alloc, 0, FrameKind::Start, start)?)?;
    items.push(frame(alloc, 1, FrameKind::Move, end)?)?;
    items.push(frame(alloc, 2, FrameKind::Move, end)?)?;
    items.push(Item::Close(Verdict::Passed))?;
    let mut records = Vec::new(alloc);
    records.push(Record {
        name: Text::of_str(alloc, "walk")?,
        items: Listed::new(items),
    })?;
    Ok(Recording::new(records))
}

const WALK: &str =
    r#"{"at":0,"frame":0,"kind":"start","level":"background wall:0,background player:1,background:2,0,\n","session":0}
{"at":1,"frame":1,"kind":"move","level":"background wall:0,background:1,background player:2,0,\n","session":0}
{"at":2,"frame":2,"kind":"move","level":"background wall:0,background:1,background player:2,0,\n","session":0}
{"close":"passed","frames":3,"name":"walk","session":0}
"#;

#[test]
fn writes_the_walk(rt: HostRuntime) -> Result<(), Fail> {
    let recording = walk(rt.alloc())?;
    let mut output = Output::new(Vec::new(rt.alloc()));
    assert!(rt; write_recording(rt.alloc(), &recording, &mut output).is_ok());
    assert!(rt; output.into_writer().as_slice() == WALK.as_bytes());
    Ok(())
}

/// How many bytes each write of the walk is lent by a writer that takes so many at most.
fn lent(alloc: Global, most: usize) -> Result<Vec<usize>, Fail> {
    let recording = walk(alloc)?;
    let mut output = Output::new(Noting {
        lent: Vec::new(alloc),
        most,
    });
    write_recording(alloc, &recording, &mut output).map_err(|_| "not written whole")?;
    let Noting { lent, .. } = output.into_writer();
    Ok(lent)
}

#[test]
fn lends_each_write_the_rest_of_one_line(rt: HostRuntime) -> Result<(), Fail> {
    let whole = lent(rt.alloc(), 1000)?;
    assert_eq!(rt; whole.as_slice(), [112, 111, 111, 56].as_slice());
    let cut = lent(rt.alloc(), 100)?;
    assert_eq!(rt; cut.as_slice(), [112, 12, 111, 11, 111, 11, 56].as_slice());
    Ok(())
}

#[test]
fn counts_what_went_out(rt: HostRuntime) -> Result<(), Fail> {
    let recording = walk(rt.alloc())?;
    let mut output = Output::new(Failing {
        bytes: Vec::new(rt.alloc()),
        calls: 0,
    });
    let fault = WriteFault {
        written: 21,
        cause: Cause::Device,
    };
    assert!(rt; write_recording(rt.alloc(), &recording, &mut output) == Err(fault));
    let failing = output.into_writer();
    assert!(rt; failing.bytes.as_slice() == b"{\"at\":0,\"frame\":0,\"ki".as_slice());
    assert_eq!(rt; failing.calls, 4);
    Ok(())
}

#[test]
fn ends_where_nothing_is_taken(rt: HostRuntime) -> Result<(), Fail> {
    let recording = walk(rt.alloc())?;
    let mut output = Output::new(Full { calls: 0 });
    let fault = WriteFault {
        written: 0,
        cause: Cause::Zero,
    };
    assert!(rt; write_recording(rt.alloc(), &recording, &mut output) == Err(fault));
    assert_eq!(rt; output.into_writer().calls, 1);
    Ok(())
}

/// How the writing of the walk ends at a call, counted from 0: with which fault, after how many calls, and with which bytes.
fn cut_at(
    alloc: Global,
    recording: &Recording,
    ends_at: usize,
    fails: bool,
) -> (Result<(), WriteFault>, usize, Vec<u8>) {
    let mut output = Output::new(Cut {
        bytes: Vec::new(alloc),
        calls: 0,
        ends_at,
        fails,
    });
    let end = write_recording(alloc, recording, &mut output);
    let Cut { bytes, calls, .. } = output.into_writer();
    (end, calls, bytes)
}

/// Whether the writing ended at this byte, for this cause, and the writer was not called again.
fn ends_there(found: (Result<(), WriteFault>, usize, Vec<u8>), at: usize, cause: Cause) -> bool {
    let (end, calls, bytes) = found;
    let fault = WriteFault {
        written: at as u64,
        cause,
    };
    end == Err(fault)
        && calls == at.saturating_add(1)
        && WALK.as_bytes().starts_with(bytes.as_slice())
        && bytes.len() == at
}

#[test]
fn ends_at_each_byte_that_is_not_written(rt: HostRuntime) -> Result<(), Fail> {
    let recording = walk(rt.alloc())?;
    for at in 0..WALK.len() {
        let failed = cut_at(rt.alloc(), &recording, at, true);
        assert!(rt; ends_there(failed, at, Cause::Device));
        let stopped = cut_at(rt.alloc(), &recording, at, false);
        assert!(rt; ends_there(stopped, at, Cause::Zero));
    }
    let (end, calls, bytes) = cut_at(rt.alloc(), &recording, WALK.len(), true);
    assert!(rt; end == Ok(()) && calls == WALK.len() && bytes.as_slice() == WALK.as_bytes());
    Ok(())
}
