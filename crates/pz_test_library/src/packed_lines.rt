//! Lines that are kept packed: they come back as they were.

use crate::writing::Failing;
use pz_lines::fault::{Cause, WriteFault};
use pz_lines::output::Output;
use pz_lines::packed::{PackedLines, Packer};
use pz_lines::writing::write_packed;
use std::alloc::{AllocError, Global};
use std::test::Fail;

/// Lines, one after another: how long each is, and from which byte up to which it has dashes in place of letters.
const LINES: [(usize, usize, usize); 27] = [
    // the same twice
    (200, 0, 0),
    (200, 0, 0),
    // in the first block, at the start of another, inside a chunk, over several, at the end
    (200, 0, 1),
    (200, 64, 65),
    (200, 70, 76),
    (200, 90, 180),
    (200, 199, 200),
    // in the last byte of a block alone, and in the first of another
    (200, 0, 0),
    (200, 63, 64),
    (200, 0, 0),
    (200, 64, 65),
    (200, 0, 0),
    // nearly all of it, and all
    (200, 1, 199),
    (200, 0, 200),
    // one byte shorter, longer; a front of the line before; longer again
    (199, 0, 0),
    (201, 0, 0),
    (130, 0, 0),
    (400, 0, 0),
    (400, 150, 151),
    // about as long as one block or two
    (64, 0, 0),
    (33, 0, 0),
    (32, 0, 0),
    (31, 0, 0),
    (1, 0, 0),
    (0, 0, 0),
    (0, 0, 0),
    (300, 0, 0),
];

fn line(alloc: Global, length: usize, from: usize, to: usize) -> Result<Vec<u8>, AllocError> {
    let mut line = Vec::new(alloc);
    for at in 0..length {
        let is_dash = from <= at && at < to;
        line.push(if is_dash {
            b'-'
        } else {
            b'a' + (at % 26) as u8
        })?;
    }
    Ok(line)
}

/// The lines as they are, so many times.
fn plain(alloc: Global, times: usize) -> Result<Vec<u8>, AllocError> {
    let mut lines = Vec::new(alloc);
    for _ in 0..times {
        for (length, from, to) in LINES {
            lines.extend_from_slice(&line(alloc, length, from, to)?)?;
        }
    }
    Ok(lines)
}

/// The same, packed.
fn packed(alloc: Global, times: usize) -> Result<PackedLines, AllocError> {
    let mut packer = Packer::new(alloc);
    for _ in 0..times {
        for (length, from, to) in LINES {
            let mut room = packer.room();
            room.extend_from_slice(&line(alloc, length, from, to)?)?;
            packer.push(room)?;
        }
    }
    Ok(packer.finish())
}

#[test]
fn gives_the_lines_back_behind_others(rt: HostRuntime) -> Result<(), Fail> {
    let none = Packer::new(rt.alloc()).finish();
    let lines = none.append_to(packed(rt.alloc(), 1)?.append_to(plain(rt.alloc(), 1)?)?)?;
    assert!(rt; lines.as_slice() == plain(rt.alloc(), 2)?.as_slice());
    Ok(())
}

#[test]
fn has_empty_room(rt: HostRuntime) -> Result<(), Fail> {
    let mut packer = Packer::new(rt.alloc());
    packer.push(line(rt.alloc(), 9, 0, 0)?)?;
    packer.push(line(rt.alloc(), 8, 0, 0)?)?;
    assert!(rt; packer.room().is_empty());
    Ok(())
}

/// The lines go out in pieces of 64 KiB, which these are longer than.
#[test]
fn writes_the_lines_of_several_texts(rt: HostRuntime) -> Result<(), Fail> {
    let texts = vec![in rt.alloc();
        packed(rt.alloc(), 1)?,
        Packer::new(rt.alloc()).finish(),
        packed(rt.alloc(), 30)?,
    ]?;
    let mut output = Output::new(Vec::new(rt.alloc()));
    assert!(rt; write_packed(rt.alloc(), &texts, &mut output).is_ok());
    assert!(rt; output.into_writer().as_slice() == plain(rt.alloc(), 31)?.as_slice());
    Ok(())
}

#[test]
fn counts_what_went_out_of_packed_lines(rt: HostRuntime) -> Result<(), Fail> {
    let texts = vec![in rt.alloc(); packed(rt.alloc(), 1)?]?;
    let mut output = Output::new(Failing {
        bytes: Vec::new(rt.alloc()),
        calls: 0,
    });
    let fault = WriteFault {
        written: 21,
        cause: Cause::Device,
    };
    assert!(rt; write_packed(rt.alloc(), &texts, &mut output) == Err(fault));
    let failing = output.into_writer();
    assert!(rt; failing.bytes.as_slice() == b"abcdefghijklmnopqrstu".as_slice());
    assert_eq!(rt; failing.calls, 4);
    Ok(())
}
