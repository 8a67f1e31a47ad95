//! Sessions, and the jobs that they make.

ghost use Rattle.std.specs.Prelude.{◌≡◌, ◌<◌};

use pz_replay::Gate;
use pz_session::{Job, Order, prepare_with, read_sessions};
use std::alloc::{AllocError, Global};
use std::test::Fail;
use std::thread::Threads;

/// A walk of two steps against a wall, which passes.
pub(crate) const WALK: &str =
    r#"["walk",["OBJECTS\nBackground .\nblack\nPlayer p\nwhite\nWall #\ngrey\nLEGEND\nCOLLISIONLAYERS\nBackground\nPlayer, Wall\nLEVELS\n#p.#\n",[3,3],"background wall:0,background:1,background player:2,0,\n"]]"#;

/// The same walk, and a recorded level that it doesn't end with.
pub(crate) const STALE: &str =
    r#"["stale",["OBJECTS\nBackground .\nblack\nPlayer p\nwhite\nWall #\ngrey\nLEGEND\nCOLLISIONLAYERS\nBackground\nPlayer, Wall\nLEVELS\n#p.#\n",[3],"background wall:0,background player:1,background:2,0,\n"]]"#;

/// A walk there and back again.
pub(crate) const LONG: &str =
    r#"["long",["OBJECTS\nBackground .\nblack\nPlayer p\nwhite\nWall #\ngrey\nLEGEND\nCOLLISIONLAYERS\nBackground\nPlayer, Wall\nLEVELS\n#p.#\n",[3,1,3,1,"undo",3,"restart"],"background wall:0,background player:1,background:2,0,\n"]]"#;

/// A source that is refused.
pub(crate) const REFUSED: &str = r#"["refused",["",[3],"background:0,\n"]]"#;

/// The job of a file of sessions, whose sources so many threads read. It promises nothing, so that its callers' proofs needn't
/// speak of the meaning of a source.
pub(crate) fn job_of<R: Threads + Sync>(
    rt: &R,
    alloc: Global,
    text: &str,
    workers: usize,
) -> Result<Job, Fail> {
    let entries = read_sessions(alloc, text).map_err(|_| "no sessions")?;
    Ok(prepare_with(rt, alloc, entries, Order::Rows, workers)?)
}

/// A file of so many sessions, each with a source of its own: of three, one has no rules, one has one, and one has a rule with a fault.
pub(crate) fn many_sources(alloc: Global, count: usize) -> Result<String, AllocError> {
    let rules = ["", "[ > Player | Wall ] -> [ Player | Wall ]", "[ Player"];
    let mut text = String::from_str(alloc, "[")?;
    for number in 0..count {
        let comma = if number == 0 { "" } else { "," };
        let rule = rules[number % 3];
        text.push_str(comma)?;
        text.push_str(format!(in alloc;
            r#"["walk",["title walk {number}\nOBJECTS\nBackground .\nblack\nPlayer p\nwhite\nWall #\ngrey\nLEGEND\nCOLLISIONLAYERS\nBackground\nPlayer, Wall\nRULES\n{rule}\nLEVELS\n#p.#\n",[3,3],"background wall:0,background:1,background player:2,0,\n"]]"#
        )?.as_str())?;
    }
    text.push_str("]")?;
    Ok(text)
}

/// Closed to one item of one session.
#[derive(Clone, Copy)]
pub(crate) struct ClosedTo {
    pub(crate) session: usize,
    pub(crate) item: u64,
}

impl Gate for ClosedTo {
    ghost may_pass = { λ _ session item. Unit {0} };

    ghost may_stop = { λ gate session item. (session ≡ gate.session) × (item ≡ gate.item) };

    fn pass(&self, session: usize, item: u64) -> bool {
        (session, item) != (self.session, self.item)
    }
}

/// Lets the first item of each session pass.
pub(crate) struct FirstAlone;

impl Gate for FirstAlone {
    ghost may_pass = { λ gate session item. item ≡ 0 };

    ghost may_stop = { λ gate session item. 0 < item };

    fn pass(&self, session: usize, item: u64) -> bool {
        item == 0
    }
}
