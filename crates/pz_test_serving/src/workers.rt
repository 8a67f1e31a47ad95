//! Files whose sessions several workers play.

ghost use Rattle.std.specs.Prelude.{◌≡◌, ◌≤◌};

use pz_serving::{Counted, Options, Output, serve};
use pz_session::Order;
use std::alloc::Global;
use std::sync::Wait;
use std::test::Fail;
use std::thread::Threads;

/// Three sessions: the first and the third are equal, and the second has a refused source.
const SESSIONS: &str =
    r#"[["a",["title B\nOBJECTS\nBackground .\nblack\nTarget o\nblue\nPlayer p\nwhite\nWall #\ngrey\nCrate c\nbrown\nSpike s\nred\nMark m\npink\nLEGEND\n@ = Crate and Target\nThing = Crate or Wall\nCOLLISIONLAYERS\nBackground\nTarget\nPlayer, Wall, Crate, Spike\nMark\nRULES\nWINCONDITIONS\nLEVELS\n#p.#\n",[3,3],"background wall:0,background:1,background player:2,0,"]],["b",["title B\nOBJECTS\nBackground .\nblack\nTarget o\nblue\nPlayer p\nwhite\nWall #\ngrey\nCrate c\nbrown\nSpike s\nred\nMark m\npink\nLEGEND\n@ = Crate and Target\nThing = Crate or Wall\nCOLLISIONLAYERS\nBackground\nTarget\nPlayer, Wall, Crate, Spike\nMark\nRULES\nrandom [ Player ] -> [ Player ]\nWINCONDITIONS\nLEVELS\np\n",[3],""]],["a",["title B\nOBJECTS\nBackground .\nblack\nTarget o\nblue\nPlayer p\nwhite\nWall #\ngrey\nCrate c\nbrown\nSpike s\nred\nMark m\npink\nLEGEND\n@ = Crate and Target\nThing = Crate or Wall\nCOLLISIONLAYERS\nBackground\nTarget\nPlayer, Wall, Crate, Spike\nMark\nRULES\nWINCONDITIONS\nLEVELS\n#p.#\n",[3,3],"background wall:0,background:1,background player:2,0,"]]]"#;

const LINES: &str = concat!(
    "{\"at\":0,\"frame\":0,\"kind\":\"start\",\"level\":\"background wall:0,background player:1,background:2,0,\\n\",\"session\":0}\n",
    "{\"at\":1,\"frame\":1,\"kind\":\"move\",\"level\":\"background wall:0,background:1,background player:2,0,\\n\",\"session\":0}\n",
    "{\"at\":2,\"frame\":2,\"kind\":\"move\",\"level\":\"background wall:0,background:1,background player:2,0,\\n\",\"session\":0}\n",
    "{\"close\":\"passed\",\"frames\":3,\"name\":\"a\",\"session\":0}\n",
    "{\"cause\":\"OutsideProfile:26\",\"close\":\"refused\",\"frames\":0,\"name\":\"b\",\"session\":1}\n",
    "{\"at\":0,\"frame\":0,\"kind\":\"start\",\"level\":\"background wall:0,background player:1,background:2,0,\\n\",\"session\":2}\n",
    "{\"at\":1,\"frame\":1,\"kind\":\"move\",\"level\":\"background wall:0,background:1,background player:2,0,\\n\",\"session\":2}\n",
    "{\"at\":2,\"frame\":2,\"kind\":\"move\",\"level\":\"background wall:0,background:1,background player:2,0,\\n\",\"session\":2}\n",
    "{\"close\":\"passed\",\"frames\":3,\"name\":\"a\",\"session\":2}\n",
);

/// The first of them, twice.
const PASSING: &str =
    r#"[["a",["title B\nOBJECTS\nBackground .\nblack\nTarget o\nblue\nPlayer p\nwhite\nWall #\ngrey\nCrate c\nbrown\nSpike s\nred\nMark m\npink\nLEGEND\n@ = Crate and Target\nThing = Crate or Wall\nCOLLISIONLAYERS\nBackground\nTarget\nPlayer, Wall, Crate, Spike\nMark\nRULES\nWINCONDITIONS\nLEVELS\n#p.#\n",[3,3],"background wall:0,background:1,background player:2,0,"]],["a",["title B\nOBJECTS\nBackground .\nblack\nTarget o\nblue\nPlayer p\nwhite\nWall #\ngrey\nCrate c\nbrown\nSpike s\nred\nMark m\npink\nLEGEND\n@ = Crate and Target\nThing = Crate or Wall\nCOLLISIONLAYERS\nBackground\nTarget\nPlayer, Wall, Crate, Spike\nMark\nRULES\nWINCONDITIONS\nLEVELS\n#p.#\n",[3,3],"background wall:0,background:1,background player:2,0,"]]]"#;

const PASSED: &str = concat!(
    "{\"at\":0,\"frame\":0,\"kind\":\"start\",\"level\":\"background wall:0,background player:1,background:2,0,\\n\",\"session\":0}\n",
    "{\"at\":1,\"frame\":1,\"kind\":\"move\",\"level\":\"background wall:0,background:1,background player:2,0,\\n\",\"session\":0}\n",
    "{\"at\":2,\"frame\":2,\"kind\":\"move\",\"level\":\"background wall:0,background:1,background player:2,0,\\n\",\"session\":0}\n",
    "{\"close\":\"passed\",\"frames\":3,\"name\":\"a\",\"session\":0}\n",
    "{\"at\":0,\"frame\":0,\"kind\":\"start\",\"level\":\"background wall:0,background player:1,background:2,0,\\n\",\"session\":1}\n",
    "{\"at\":1,\"frame\":1,\"kind\":\"move\",\"level\":\"background wall:0,background:1,background player:2,0,\\n\",\"session\":1}\n",
    "{\"at\":2,\"frame\":2,\"kind\":\"move\",\"level\":\"background wall:0,background:1,background player:2,0,\\n\",\"session\":1}\n",
    "{\"close\":\"passed\",\"frames\":3,\"name\":\"a\",\"session\":1}\n",
);

/// Serves sessions by rows: the status, and what was written.
fn served<T: Threads + Wait + Sync>(
    rt: &T,
    alloc: Global,
    sessions: &str,
    workers: usize,
) -> (u8, Vec<u8>, Vec<u8>)
    requires { (1 ≤ workers) × (workers ≤ 64) }
{
    let mut input = Counted::new(sessions.as_bytes());
    let mut output = Output::new(Vec::new(alloc));
    let mut errors = Output::new(Vec::new(alloc));
    let options = Options {
        workers,
        order: Order::Rows,
    };
    let status = serve(rt, alloc, &mut input, &mut output, &mut errors, options);
    (status, output.into_writer(), errors.into_writer())
}

#[test]
fn writes_the_lines_in_the_order_of_the_sessions(rt: HostRuntime) -> Result<(), Fail> {
    for workers in 1..65 {
        let (status, lines, errors) = served(&rt, rt.alloc(), SESSIONS, workers);
        assert_eq!(rt; status, 1);
        assert!(rt; lines.as_slice() == LINES.as_bytes());
        assert!(rt; errors.is_empty());
    }
    Ok(())
}

#[test]
fn passes_if_the_sessions_of_each_worker_pass(rt: HostRuntime) -> Result<(), Fail> {
    for workers in [2, 64] {
        let (status, lines, errors) = served(&rt, rt.alloc(), PASSING, workers);
        assert_eq!(rt; status, 0);
        assert!(rt; lines.as_slice() == PASSED.as_bytes());
        assert!(rt; errors.is_empty());
    }
    Ok(())
}
