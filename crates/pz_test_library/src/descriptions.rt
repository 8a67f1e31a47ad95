//! What is told of a source, in whole and in outline, of a level text, and of a file of sessions.

use pz_describe::{describe, describe_level, describe_recordings, outline};
use pz_entries::file::read_sessions;
use std::test::Fail;

const WALK: &str =
    "title A (plain) walk\n\nOBJECTS\nBackground .\nblack\n\nPlayer p (him)\nWhite #f00\n.....\n.000.\n.010.\n.000.\n.....\n\nWall\ngrey\nLEGEND\n# = Wall\nO = Player or Wall\nCOLLISIONLAYERS\nBackground\nPlayer, Wall\nRULES\nright [ > Player | Wall ] -> [ Player | ] again\nWINCONDITIONS\nNo Wall\nLEVELS\nmessage Go (right)\np#.\n";

const TOLD: &str = concat!(
    "{\"fault\":null,",
    "\"layers\":[{\"line\":21,\"names\":[\"background\"]},{\"line\":22,\"names\":[\"player\",\"wall\"]}],",
    "\"legend\":[{\"kind\":\"object\",\"left\":[\"#\"],\"line\":18,\"members\":[2],\"right\":[\"Wall\"]},",
    "{\"kind\":\"property\",\"left\":[\"O\"],\"line\":19,\"members\":[1,2],\"right\":[\"Player\",\"or\",\"Wall\"]}],",
    "\"levels\":[{\"line\":28,\"message\":\"Go (right)\"},{\"line\":29,\"rows\":[\"p#.\"]}],",
    "\"lines\":[[1,\"prelude\",false,\"title A (plain) walk\"],[2,\"prelude\",false,\"\"],[3,\"objects\",true,\"OBJECTS\"],[4,\"objects\",false,\"Background .\"],[5,\"objects\",false,\"black\"],[6,\"objects\",false,\"\"],[7,\"objects\",false,\"Player p\"],[8,\"objects\",false,\"White #f00\"],[9,\"objects\",false,\".....\"],[10,\"objects\",false,\".000.\"],[11,\"objects\",false,\".010.\"],[12,\"objects\",false,\".000.\"],[13,\"objects\",false,\".....\"],[14,\"objects\",false,\"\"],[15,\"objects\",false,\"Wall\"],[16,\"objects\",false,\"grey\"],[17,\"legend\",true,\"LEGEND\"],[18,\"legend\",false,\"# = Wall\"],[19,\"legend\",false,\"O = Player or Wall\"],[20,\"collisionlayers\",true,\"COLLISIONLAYERS\"],[21,\"collisionlayers\",false,\"Background\"],[22,\"collisionlayers\",false,\"Player, Wall\"],[23,\"rules\",true,\"RULES\"],[24,\"rules\",false,\"right [ > Player | Wall ] -> [ Player | ] again\"],[25,\"winconditions\",true,\"WINCONDITIONS\"],[26,\"winconditions\",false,\"No Wall\"],[27,\"levels\",true,\"LEVELS\"],[28,\"levels\",false,\"message Go (right)\"],[29,\"levels\",false,\"p#.\"],[30,\"levels\",false,\"\"]],",
    "\"objects\":[{\"colours\":[\"black\"],\"layer\":0,\"line\":4,\"names\":[\"Background\",\".\"],\"sprite\":[]},",
    "{\"colours\":[\"White\",\"#f00\"],\"layer\":1,\"line\":7,\"names\":[\"Player\",\"p\"],\"sprite\":[\".....\",\".000.\",\".010.\",\".000.\",\".....\"]},",
    "{\"colours\":[\"grey\"],\"layer\":1,\"line\":15,\"names\":[\"Wall\"],\"sprite\":[]}],",
    "\"prelude\":[[1,\"title\",\"A (plain) walk\"]],",
    "\"program\":{\"early\":[{\"groups\":[[24]],\"loop\":false}],\"late\":[]},",
    "\"rules\":[{\"line\":24,\"words\":[\"right\",\"[\",\">\",\"player\",\"|\",\"wall\",\"]\",\"->\",\"[\",\"player\",\"|\",\"]\",\"again\"]}],",
    "\"wins\":[{\"line\":26,\"words\":[\"no\",\"wall\"]}]}",
);

const REFUSED: &str =
    "{\"fault\":{\"code\":\"Section\",\"line\":0},\"layers\":[],\"legend\":[],\"levels\":[],\"lines\":[[1,\"prelude\",false,\"\"]],\"objects\":[],\"prelude\":[],\"program\":null,\"rules\":[],\"wins\":[]}";

#[test]
fn tells_a_game(rt: HostRuntime) -> Result<(), Fail> {
    let text = describe(rt.alloc(), WALK)?;
    assert!(rt; text.as_slice() == TOLD.as_bytes());
    Ok(())
}

#[test]
fn tells_the_fault_of_an_empty_source(rt: HostRuntime) -> Result<(), Fail> {
    let text = describe(rt.alloc(), "")?;
    assert!(rt; text.as_slice() == REFUSED.as_bytes());
    Ok(())
}

/// The program in what is told of the walk, which its outline doesn't have.
const PROGRAM: &str = "\"program\":{\"early\":[{\"groups\":[[24]],\"loop\":false}],\"late\":[]},";

const NO_PROGRAM: &str = "\"program\":null,";

#[test]
fn outlines_a_game(rt: HostRuntime) -> Result<(), Fail> {
    let told = TOLD.replace(rt.alloc(), PROGRAM, NO_PROGRAM)?;
    assert!(rt; told.len() < TOLD.len());
    let text = outline(rt.alloc(), WALK)?;
    assert!(rt; text.as_slice() == told.as_bytes());
    Ok(())
}

#[test]
fn outlines_a_source_that_is_refused(rt: HostRuntime) -> Result<(), Fail> {
    let text = outline(rt.alloc(), "")?;
    assert!(rt; text.as_slice() == REFUSED.as_bytes());
    Ok(())
}

#[test]
fn tells_the_cells_of_a_level_text(rt: HostRuntime) -> Result<(), Fail> {
    for (text, told) in [
        ("", r#"{"cells":[],"sets":[]}"#),
        (":0,\n", r#"{"cells":[0],"sets":[""]}"#),
        (
            "b:0,B  a:1,\n0,1,\n",
            r#"{"cells":[0,1,0,1],"sets":["b","a b"]}"#,
        ),
        (
            "a b:0,b a A:1,1,c:2,0,",
            r#"{"cells":[0,0,0,1,0],"sets":["a b","c"]}"#,
        ),
        ("a:0", "null"),
        ("a:1,", "null"),
        ("0,", "null"),
    ] {
        let line = describe_level(rt.alloc(), text)?;
        assert!(rt; line.as_slice() == told.as_bytes());
    }
    Ok(())
}

const FILE: &str =
    r#"[["one",["S",[0,1,2,3,4,"undo","restart","tick"],"a:0,"]],["two",["T",[],"",7]],["\"three",["S",[],"b:0,0,",null]]]"#;

const SESSIONS: &str = concat!(
    r#"{"sessions":[{"index":0,"inputs":[0,1,2,3,4,"undo","restart","tick"],"level":{"cells":[0],"sets":["a"]},"name":"one","source":0},"#,
    r#"{"index":7,"inputs":[],"level":{"cells":[],"sets":[]},"name":"two","source":1},"#,
    r#"{"index":0,"inputs":[],"level":{"cells":[0,0],"sets":["b"]},"name":"\"three","source":0}],"sources":["S","T"]}"#,
);

#[test]
fn tells_the_sessions_of_a_file(rt: HostRuntime) -> Result<(), Fail> {
    for (file, told) in [("[]", r#"{"sessions":[],"sources":[]}"#), (FILE, SESSIONS)] {
        let entries = match read_sessions(rt.alloc(), file) {
            Ok(entries) => entries,
            Err(fault) => return Err(Fail::new(format_args!("{fault:?}"))),
        };
        let text = describe_recordings(rt.alloc(), &entries)?;
        assert!(rt; text.as_slice() == told.as_bytes());
    }
    Ok(())
}
