//! From the bytes of a file to its lines.

use pz_engine::engine::{lines, lines_from, play, play_case};
use pz_engine::sessions::decode;
use pz_entries::fault::FileFault;
use pz_job::job::prepare;
use pz_record::order::Order;
use std::alloc::Global;
use std::test::Fail;

/// A walk of two steps against a wall, which passes by rows, and a source that is refused.
const SESSIONS: &str =
    r#"[["walk",["OBJECTS\nBackground .\nblack\nPlayer p\nwhite\nWall #\ngrey\nLEGEND\nCOLLISIONLAYERS\nBackground\nPlayer, Wall\nLEVELS\n#p.#\n",[3,3],"background wall:0,background:1,background player:2,0,\n"]],["refused",["",[3],"background:0,\n"]]]"#;

const LINES: &str = concat!(
    "{\"at\":0,\"frame\":0,\"kind\":\"start\",\"level\":\"background wall:0,background player:1,background:2,0,\\n\",\"session\":0}\n",
    "{\"at\":1,\"frame\":1,\"kind\":\"move\",\"level\":\"background wall:0,background:1,background player:2,0,\\n\",\"session\":0}\n",
    "{\"at\":2,\"frame\":2,\"kind\":\"move\",\"level\":\"background wall:0,background:1,background player:2,0,\\n\",\"session\":0}\n",
    "{\"close\":\"passed\",\"frames\":3,\"name\":\"walk\",\"session\":0}\n",
    "{\"cause\":\"Section:0\",\"close\":\"refused\",\"frames\":0,\"name\":\"refused\",\"session\":1}\n",
);

#[test]
fn plays_each_session_of_a_file(rt: HostRuntime) -> Result<(), Fail> {
    let played = lines(rt.alloc(), SESSIONS.as_bytes(), Order::Rows).map_err(|_| "no lines")?;
    assert!(rt; played.lines.as_slice() == LINES.as_bytes());
    assert!(rt; !played.passed);
    Ok(())
}

/// Of these the lines from the first input on.
const LINES_FROM_1: &str = concat!(
    "{\"at\":1,\"frame\":1,\"kind\":\"move\",\"level\":\"background wall:0,background:1,background player:2,0,\\n\",\"session\":0}\n",
    "{\"at\":2,\"frame\":2,\"kind\":\"move\",\"level\":\"background wall:0,background:1,background player:2,0,\\n\",\"session\":0}\n",
    "{\"close\":\"passed\",\"frames\":3,\"name\":\"walk\",\"session\":0}\n",
    "{\"cause\":\"Section:0\",\"close\":\"refused\",\"frames\":0,\"name\":\"refused\",\"session\":1}\n",
);

#[test]
fn gives_the_lines_from_an_input_on(rt: HostRuntime) -> Result<(), Fail> {
    for (from, wanted) in [(0, LINES), (1, LINES_FROM_1)] {
        let played = lines_from(rt.alloc(), SESSIONS.as_bytes(), Order::Rows, from).map_err(
            |_| "no lines",
        )?;
        assert!(rt; played.lines.as_slice() == wanted.as_bytes());
        assert!(rt; !played.passed);
    }
    Ok(())
}

#[test]
fn plays_a_file_without_sessions(rt: HostRuntime) -> Result<(), Fail> {
    let played = lines(rt.alloc(), b"[]".as_slice(), Order::Columns).map_err(|_| "no lines")?;
    assert!(rt; played.lines.is_empty());
    assert!(rt; played.passed);
    Ok(())
}

#[test]
fn says_what_is_wrong_with_a_file(rt: HostRuntime) -> Result<(), Fail> {
    for (bytes, fault) in [
        (b"".as_slice(), FileFault::NotJson),
        (b"\xff".as_slice(), FileFault::NotJson),
        (b"[1]".as_slice(), FileFault::BadEntry(0)),
    ] {
        let answer = lines(rt.alloc(), bytes, Order::Rows);
        assert!(rt; answer.is_err_and(|cause| cause == fault));
    }
    Ok(())
}

/// The lines of the first case of the file from an input on, played as the session of this number, and whether it passed.
fn played_case(alloc: Global, session: u64, from: u64) -> Result<(Vec<u8>, bool), Fail> {
    let entries = decode(alloc, SESSIONS.as_bytes()).map_err(|_| "no entries")?;
    let job = prepare(alloc, entries, Order::Rows)?;
    match job.len() {
        0 => Err(Fail::new("no case")),
        _ => {
            let played = play_case(alloc, session, job.case(0), from)?;
            Ok((played.lines.append_to(Vec::new(alloc))?, played.passed))
        }
    }
}

/// The last two lines of the walk, played as session 7.
const LINES_OF_7: &str = concat!(
    "{\"at\":2,\"frame\":2,\"kind\":\"move\",\"level\":\"background wall:0,background:1,background player:2,0,\\n\",\"session\":7}\n",
    "{\"close\":\"passed\",\"frames\":3,\"name\":\"walk\",\"session\":7}\n",
);

#[test]
fn plays_one_case(rt: HostRuntime) -> Result<(), Fail> {
    let (lines, passed) = played_case(rt.alloc(), 7, 2)?;
    assert!(rt; lines.as_slice() == LINES_OF_7.as_bytes());
    assert!(rt; passed);
    Ok(())
}

/// The lines of all cases of the file, and whether all passed.
fn played_job(alloc: Global) -> Result<(Vec<u8>, bool), Fail> {
    let entries = decode(alloc, SESSIONS.as_bytes()).map_err(|_| "no entries")?;
    let job = prepare(alloc, entries, Order::Rows)?;
    let played = play(alloc, &job, 1)?;
    Ok((played.lines, played.passed))
}

#[test]
fn plays_a_job(rt: HostRuntime) -> Result<(), Fail> {
    let (lines, passed) = played_job(rt.alloc())?;
    assert!(rt; lines.as_slice() == LINES_FROM_1.as_bytes());
    assert!(rt; !passed);
    Ok(())
}
