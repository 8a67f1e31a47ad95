//! The command line, and the serving of files.

ghost use Rattle.std.specs.Prelude.{◌≡◌, None};

use pz_serving::{
    Counted, Options, OptionsFault, Output, read_options, serve, serve_opened, serve_words,
};
use pz_session::Order;
use std::alloc::{AllocGlobal, Global};
use std::fs::Files;
use std::io;
use std::io::{Read, Write};
use std::sync::Wait;
use std::test::Fail;
use std::thread::Threads;

fn words(rt: &HostRuntime, line: &str) -> Result<Vec<String>, Fail> {
    let mut words = Vec::new(rt.alloc());
    for word in line.split_whitespace() {
        words.push(String::from_str(rt.alloc(), word)?)?;
    }
    Ok(words)
}

#[test]
fn chooses_what_the_words_say(rt: HostRuntime) -> Result<(), Fail> {
    let line = words(&rt, "pz_replayer --workers 64 --order rows in.json")?;
    let chosen = read_options(rt.alloc(), &line);
    assert!(rt;
        chosen.is_ok_and(|c| c.options.workers == 64
            && c.options.order == Order::Rows
            && c.file.is_some_and(|f| f.as_str() == "in.json"))
    );
    Ok(())
}

#[test]
fn chooses_two_workers_and_columns(rt: HostRuntime) -> Result<(), Fail> {
    let line = words(&rt, "pz_replayer")?;
    let chosen = read_options(rt.alloc(), &line);
    assert!(rt;
        chosen.is_ok_and(|c| c.options.workers == 2
            && c.options.order == Order::Columns
            && c.file.is_none())
    );
    Ok(())
}

#[test]
fn refuses_bad_lines(rt: HostRuntime) -> Result<(), Fail> {
    for line in [
        "p --workers 0",
        "p --workers 65",
        "p --order diagonal",
        "p --help",
        "p a b",
    ] {
        let line = words(&rt, line)?;
        let chosen = read_options(rt.alloc(), &line);
        assert!(rt; chosen.is_err_and(|fault| fault == OptionsFault::BadLine));
    }
    Ok(())
}

/// Gives one byte a call, and fails at a call of this number, counted from 0. It counts its calls.
#[derive(Drop)]
struct Slow<'a> {
    bytes: &'a [u8],
    calls: usize,
    fails_at: usize,
}

impl<'a> Read for Slow<'a> {
    fn read(&mut self, buf: &mut [u8]) -> io::Result<usize> {
        let at = self.calls;
        self.calls = at.saturating_add(1);
        if at == self.fails_at {
            return Err(io::Error::from(io::ErrorKind::BrokenPipe));
        }
        if at >= self.bytes.len() || buf.is_empty() {
            return Ok(0);
        }
        buf[0] = self.bytes[at];
        Ok(1)
    }
}

const REFUSED: &str = r#"[["walk",["no game",[3],"",0]]]"#;

/// One worker, and columns.
const BY_ONE: Options = Options {
    workers: 1,
    order: Order::Columns,
};

const CLOSE: &str =
    "{\"cause\":\"Section:0\",\"close\":\"refused\",\"frames\":0,\"name\":\"walk\",\"session\":0}\n";

/// A reader of these bytes that fails at this call.
fn reader_of<'a>(bytes: &'a [u8], fails_at: usize) -> Slow<'a> {
    Slow {
        bytes,
        calls: 0,
        fails_at,
    }
}

/// The lines of the walk, by rows or columns.
const WALKED: &str = concat!(
    "{\"at\":0,\"frame\":0,\"kind\":\"start\",\"level\":\"background wall:0,background player:1,background:2,0,\\n\",\"session\":0}\n",
    "{\"at\":1,\"frame\":1,\"kind\":\"move\",\"level\":\"background wall:0,background:1,background player:2,0,\\n\",\"session\":0}\n",
    "{\"at\":2,\"frame\":2,\"kind\":\"move\",\"level\":\"background wall:0,background:1,background player:2,0,\\n\",\"session\":0}\n",
    "{\"close\":\"passed\",\"frames\":3,\"name\":\"walk\",\"session\":0}\n"
);

#[test]
fn ends_at_a_read_that_fails(rt: HostRuntime) -> Result<(), Fail> {
    for fails_at in 0..WALK.len() + 2 {
        let mut input = Counted::new(reader_of(WALK.as_bytes(), fails_at));
        let mut output = Output::new(Vec::new(rt.alloc()));
        let mut errors = Output::new(Vec::new(rt.alloc()));
        let status = serve(
            &rt,
            rt.alloc(),
            &mut input,
            &mut output,
            &mut errors,
            BY_ONE,
        );
        let (output, errors) = (output.into_writer(), errors.into_writer());
        let got = (status, output.as_slice(), errors.as_slice());
        let wanted = if fails_at > WALK.len() {
            (0, WALKED.as_bytes(), b"".as_slice())
        } else {
            (2, b"".as_slice(), b"read-fault\n".as_slice())
        };
        assert!(rt; got == wanted);
        assert_eq!(rt; input.into_reader().calls, fails_at.min(WALK.len()) + 1);
    }
    Ok(())
}

/// Gives spaces without end, one a call. It counts its calls.
#[derive(Drop)]
struct Endless {
    calls: u64,
}

impl Read for Endless {
    fn read(&mut self, buf: &mut [u8]) -> io::Result<usize> {
        self.calls = self.calls.saturating_add(1);
        if buf.is_empty() {
            return Ok(0);
        }
        buf[0] = b' ';
        Ok(1)
    }
}

#[test]
fn calls_a_reader_without_end_as_often_as_promised(rt: HostRuntime) -> Result<(), Fail> {
    let mut input = Counted::new(Endless { calls: 0 });
    let mut output = Output::new(Vec::new(rt.alloc()));
    let mut errors = Output::new(Vec::new(rt.alloc()));
    let status = serve(
        &rt,
        rt.alloc(),
        &mut input,
        &mut output,
        &mut errors,
        BY_ONE,
    );
    let (output, errors) = (output.into_writer(), errors.into_writer());
    assert!(rt;
        (status, output.as_slice(), errors.as_slice())
            == (2, b"".as_slice(), b"too-many\n".as_slice())
    );
    assert_eq!(rt; input.into_reader().calls, 16_777_217);
    Ok(())
}

/// What comes of serving these words, with a refused session as the input: the status, what was written, what was said, and how often the
/// input was read.
fn served<T: Files + Threads + Wait + Sync + AllocGlobal>(
    rt: &T,
    line: &[String],
) -> (u8, Vec<u8>, Vec<u8>, usize) {
    let mut input = Counted::new(reader_of(REFUSED.as_bytes(), usize::MAX));
    let mut output = Output::new(Vec::new(rt.alloc()));
    let mut errors = Output::new(Vec::new(rt.alloc()));
    let status = serve_words(rt, line, &mut input, &mut output, &mut errors);
    let read = input.into_reader().calls;
    (status, output.into_writer(), errors.into_writer(), read)
}

#[test]
fn serves_the_input_where_no_file_is_named(rt: HostRuntime) -> Result<(), Fail> {
    let line = words(&rt, "p --workers 1 --order rows")?;
    let (status, written, said, calls) = served(&rt, &line);
    assert!(rt;
        (status, written.as_slice(), said.as_slice()) == (1, CLOSE.as_bytes(), b"".as_slice())
    );
    assert_eq!(rt; calls, REFUSED.len() + 1);
    Ok(())
}

#[test]
fn says_why_a_file_is_not_served(rt: HostRuntime) -> Result<(), Fail> {
    for (line, why) in [
        ("p --workers 0", "bad command line\n"),
        ("p no/such/file", "open-fault\n"),
    ] {
        let line = words(&rt, line)?;
        let (status, written, said, calls) = served(&rt, &line);
        assert!(rt;
            (status, written.as_slice(), said.as_slice()) == (2, b"".as_slice(), why.as_bytes())
        );
        assert_eq!(rt; calls, 0);
    }
    Ok(())
}

#[test]
fn serves_a_file_that_was_opened(rt: HostRuntime) -> Result<(), Fail> {
    let mut opened = Ok(Counted::new(reader_of(REFUSED.as_bytes(), usize::MAX)));
    let mut output = Output::new(Vec::new(rt.alloc()));
    let mut errors = Output::new(Vec::new(rt.alloc()));
    let status = serve_opened(
        &rt,
        rt.alloc(),
        &mut opened,
        &mut output,
        &mut errors,
        BY_ONE,
    );
    let (output, errors) = (output.into_writer(), errors.into_writer());
    assert!(rt;
        (status, output.as_slice(), errors.as_slice()) == (1, CLOSE.as_bytes(), b"".as_slice())
    );
    assert!(rt; opened.is_ok_and(|file| file.into_reader().calls == REFUSED.len() + 1));
    Ok(())
}

#[test]
fn says_why_a_file_was_not_opened(rt: HostRuntime) -> Result<(), Fail> {
    for (kind, said) in [
        (io::ErrorKind::OutOfMemory, "memory\n"),
        (io::ErrorKind::NotFound, "open-fault\n"),
        (io::ErrorKind::PermissionDenied, "open-fault\n"),
    ] {
        let mut opened: io::Result<Counted<Endless>> = Err(io::Error::from(kind));
        let mut output = Output::new(Vec::new(rt.alloc()));
        let mut errors = Output::new(Vec::new(rt.alloc()));
        let status = serve_opened(
            &rt,
            rt.alloc(),
            &mut opened,
            &mut output,
            &mut errors,
            BY_ONE,
        );
        let (output, errors) = (output.into_writer(), errors.into_writer());
        assert!(rt;
            (status, output.as_slice(), errors.as_slice()) == (2, b"".as_slice(), said.as_bytes())
        );
    }
    Ok(())
}

/// Gives as many bytes as it is lent room for. It counts its calls, and notes the least room.
#[derive(Drop)]
struct Whole<'a> {
    bytes: &'a [u8],
    at: usize,
    calls: u32,
    least: usize,
}

impl<'a> Read for Whole<'a> {
    fn read(&mut self, buf: &mut [u8]) -> io::Result<usize> {
        self.calls = self.calls.saturating_add(1);
        self.least = self.least.min(buf.len());
        let at = self.at.min(self.bytes.len());
        let count = buf.len().min(self.bytes.len() - at);
        buf[..count].copy_from_slice(&self.bytes[at..at + count]);
        self.at = at + count;
        Ok(count)
    }
}

/// Takes all bytes of a call, and counts its calls.
#[derive(Drop)]
struct Counting {
    bytes: Vec<u8>,
    calls: u32,
}

impl Write for Counting {
    fn write(&mut self, buf: &[u8]) -> io::Result<usize> {
        self.calls = self.calls.saturating_add(1);
        self.bytes.extend_from_slice(buf)?;
        Ok(buf.len())
    }

    fn flush(&mut self) -> io::Result<()> {
        Ok(())
    }
}

/// The walk is shorter than the room that a reader is lent, and its lines are fewer than go out together.
#[test]
fn lends_a_device_all_that_it_may_move_at_once(rt: HostRuntime) -> Result<(), Fail> {
    let mut input = Counted::new(Whole {
        bytes: WALK.as_bytes(),
        at: 0,
        calls: 0,
        least: usize::MAX,
    });
    let mut output = Output::new(Counting {
        bytes: Vec::new(rt.alloc()),
        calls: 0,
    });
    let mut errors = Output::new(Vec::new(rt.alloc()));
    let status = serve(
        &rt,
        rt.alloc(),
        &mut input,
        &mut output,
        &mut errors,
        BY_ONE,
    );
    let reader = input.into_reader();
    let writer = output.into_writer();
    assert!(rt; (status, writer.bytes.as_slice()) == (0, WALKED.as_bytes()));
    assert_eq!(rt; (reader.calls, reader.least, writer.calls), (2, 4096, 1));
    Ok(())
}

/// Takes seven bytes a call, up to its fourth call, which fails. It counts its calls, those after the fourth too.
#[derive(Drop)]
struct Failing {
    bytes: Vec<u8>,
    calls: u32,
}

impl Write for Failing {
    fn write(&mut self, buf: &[u8]) -> io::Result<usize> {
        self.calls = self.calls.saturating_add(1);
        if self.calls == 4 {
            return Err(io::Error::from(io::ErrorKind::BrokenPipe));
        }
        let count = buf.len().min(7);
        self.bytes.extend_from_slice(&buf[..count])?;
        Ok(count)
    }

    fn flush(&mut self) -> io::Result<()> {
        Ok(())
    }
}

/// Fails at each call.
#[derive(Drop)]
struct Broken {
    calls: u32,
}

impl Write for Broken {
    fn write(&mut self, _buf: &[u8]) -> io::Result<usize> {
        self.calls = self.calls.saturating_add(1);
        Err(io::Error::from(io::ErrorKind::BrokenPipe))
    }

    fn flush(&mut self) -> io::Result<()> {
        Ok(())
    }
}

const WALK: &str =
    r#"[["walk",["OBJECTS\nBackground .\nblack\nPlayer p\nwhite\nWall #\ngrey\nLEGEND\nCOLLISIONLAYERS\nBackground\nPlayer, Wall\nLEVELS\n#p.#\n",[3,3],"background wall:0,background:1,background player:2,0,\n"]]]"#;

/// Serves the walk to a writer that fails at its fourth call: the status, and the bytes that the writer took.
fn served_to_a_failing_writer<T: Threads + Wait + Sync, E: Write>(
    rt: &T,
    alloc: Global,
    errors: &mut Output<E>,
) -> (u8, Vec<u8>, u32)
    requires { errors.old.failure ≡ None }
{
    let mut input = Counted::new(reader_of(WALK.as_bytes(), usize::MAX));
    let mut output = Output::new(Failing {
        bytes: Vec::new(alloc),
        calls: 0,
    });
    let status = serve(rt, alloc, &mut input, &mut output, errors, BY_ONE);
    let Failing { bytes, calls } = output.into_writer();
    (status, bytes, calls)
}

const WRITTEN: &[u8] = b"{\"at\":0,\"frame\":0,\"ki";

#[test]
fn counts_what_was_written_where_the_output_fails(rt: HostRuntime) -> Result<(), Fail> {
    let mut errors = Output::new(Vec::new(rt.alloc()));
    let (status, bytes, calls) = served_to_a_failing_writer(&rt, rt.alloc(), &mut errors);
    let said = errors.into_writer();
    assert!(rt; (status, bytes.as_slice(), calls) == (2, WRITTEN, 4));
    assert!(rt; said.as_slice() == b"write-fault 21\n".as_slice());
    Ok(())
}

#[test]
fn ends_the_same_where_the_errors_fail_too(rt: HostRuntime) -> Result<(), Fail> {
    let mut errors = Output::new(Broken { calls: 0 });
    let (status, bytes, calls) = served_to_a_failing_writer(&rt, rt.alloc(), &mut errors);
    assert!(rt; (status, bytes.as_slice(), calls) == (2, WRITTEN, 4));
    assert_eq!(rt; errors.into_writer().calls, 1);
    Ok(())
}
