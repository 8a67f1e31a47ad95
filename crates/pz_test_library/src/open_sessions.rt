//! What open sessions show.

use pz_entries::fault::FileFault;
use pz_game::direction::Dir;
use pz_open::sessions::{OpenSessions, SessionFault};
use pz_record::input::{Input, MOST_INPUTS};
use pz_record::order::Order;
use std::alloc::Global;
use std::test::Fail;

/// A walk along a wall, and a source that is refused.
const SESSIONS: &str =
    r#"[["walk",["OBJECTS\nBackground .\nblack\nPlayer p\nwhite\nWall #\ngrey\nLEGEND\nCOLLISIONLAYERS\nBackground\nPlayer, Wall\nLEVELS\n#p.#\n",[],"background wall:0,background:1,background player:2,0,\n"]],["refused",["",[3],"background:0,\n"]]]"#;

const RIGHT: Input = Input::Press(Dir::Right);

const START: &str = concat!(
    "{\"at\":0,\"frame\":0,\"kind\":\"start\",\"level\":\"background wall:0,background player:1,background:2,0,\\n\",\"session\":0}\n",
    "{\"close\":\"differs\",\"frames\":1,\"name\":\"walk\",\"session\":0}\n",
);

/// Behind one step to the right, and behind two.
const ONE: &str = concat!(
    "{\"at\":1,\"frame\":1,\"kind\":\"move\",\"level\":\"background wall:0,background:1,background player:2,0,\\n\",\"session\":0}\n",
    "{\"close\":\"passed\",\"frames\":2,\"name\":\"walk\",\"session\":0}\n",
);

const TWO: &str = concat!(
    "{\"at\":2,\"frame\":2,\"kind\":\"move\",\"level\":\"background wall:0,background:1,background player:2,0,\\n\",\"session\":0}\n",
    "{\"close\":\"passed\",\"frames\":3,\"name\":\"walk\",\"session\":0}\n",
);

/// Behind a step and an undo.
const UNDONE: &str = concat!(
    "{\"at\":2,\"frame\":2,\"kind\":\"undo\",\"level\":\"background wall:0,background player:1,background:2,0,\\n\",\"session\":0}\n",
    "{\"close\":\"differs\",\"frames\":3,\"name\":\"walk\",\"session\":0}\n",
);

const REFUSED: &str =
    "{\"cause\":\"Section:0\",\"close\":\"refused\",\"frames\":0,\"name\":\"refused\",\"session\":1}\n";

/// Sessions of which the walk was opened, as number 0.
fn opened(alloc: Global) -> Result<OpenSessions, Fail> {
    let mut sessions = OpenSessions::new(alloc);
    sessions
        .open(SESSIONS.as_bytes(), Order::Rows, 0)
        .map_err(|_| "not opened")?;
    Ok(sessions)
}

/// Whether an answer has these lines.
fn are(answer: Result<Vec<u8>, SessionFault>, lines: &str) -> bool {
    answer.is_ok_and(|it| it.as_slice() == lines.as_bytes())
}

#[test]
fn gives_inputs_one_by_one_and_at_once(rt: HostRuntime) -> Result<(), Fail> {
    let mut sessions = opened(rt.alloc())?;
    assert!(rt; are(sessions.give(0, &[]), START));
    assert!(rt; are(sessions.give(0, &[RIGHT]), ONE));
    assert!(rt; are(sessions.give(0, &[RIGHT]), TWO));
    assert!(rt; are(sessions.give(0, &[]), TWO));
    assert!(rt; are(sessions.back(0, 0), START));
    assert!(rt; are(sessions.give(0, &[RIGHT, RIGHT]), TWO));
    assert!(rt; are(sessions.back(0, 1), ONE));
    assert!(rt; are(sessions.give(0, &[Input::Undo]), UNDONE));
    assert!(rt; are(sessions.back(0, 2), UNDONE));
    Ok(())
}

#[test]
fn a_copy_goes_on_by_itself(rt: HostRuntime) -> Result<(), Fail> {
    let mut sessions = opened(rt.alloc())?;
    assert!(rt; are(sessions.give(0, &[RIGHT]), ONE));
    assert!(rt; sessions.copy(0).is_ok());
    assert!(rt; sessions.len() == 2);
    assert!(rt; are(sessions.give(1, &[RIGHT]), TWO));
    assert!(rt; are(sessions.give(0, &[Input::Undo]), UNDONE));
    assert!(rt; are(sessions.give(1, &[]), TWO));
    Ok(())
}

#[test]
fn a_number_is_refused_once_its_session_is_closed(rt: HostRuntime) -> Result<(), Fail> {
    let mut sessions = opened(rt.alloc())?;
    assert!(rt; sessions.close(0));
    assert!(rt; !sessions.close(0));
    assert!(rt; !sessions.close(7));
    let lines = sessions
        .open(SESSIONS.as_bytes(), Order::Rows, 0)
        .map_err(|_| "not opened")?;
    assert!(rt; lines.as_slice() == START.as_bytes());
    for number in [0, 2, usize::MAX] {
        assert!(rt;
            sessions
                .give(number, &[RIGHT])
                .is_err_and(|why| why == SessionFault::NotOpen)
        );
        assert!(rt;
            sessions
                .back(number, 0)
                .is_err_and(|why| why == SessionFault::NotOpen)
        );
        assert!(rt;
            sessions
                .copy(number)
                .is_err_and(|why| why == SessionFault::NotOpen)
        );
    }
    assert!(rt; sessions.len() == 2);
    assert!(rt; are(sessions.give(1, &[RIGHT]), ONE));
    Ok(())
}

#[test]
fn what_is_refused_is_told_and_is_not_open(rt: HostRuntime) -> Result<(), Fail> {
    let mut sessions = opened(rt.alloc())?;
    for (number, told) in [(1, REFUSED), (2, "")] {
        let lines = sessions
            .open(SESSIONS.as_bytes(), Order::Rows, number)
            .map_err(|_| "not opened")?;
        assert!(rt; lines.as_slice() == told.as_bytes());
    }
    assert!(rt; sessions.len() == 3);
    assert!(rt;
        sessions
            .give(1, &[])
            .is_err_and(|why| why == SessionFault::NotOpen)
    );
    assert!(rt;
        sessions
            .give(2, &[])
            .is_err_and(|why| why == SessionFault::NotOpen)
    );
    let answer = sessions.open(b"[3]", Order::Rows, 0);
    assert!(rt; answer.is_err_and(|why| why == FileFault::BadEntry(0)));
    assert!(rt; sessions.len() == 3);
    Ok(())
}

/// So many inputs that step to the right and back in turn.
fn steps(alloc: Global, count: usize) -> Result<Vec<Input>, Fail> {
    let mut inputs = Vec::new(alloc);
    for number in 0..count {
        inputs.push(if number % 2 == 0 { RIGHT } else { Input::Undo })?;
    }
    Ok(inputs)
}

#[test]
fn goes_back_to_any_of_many_inputs(rt: HostRuntime) -> Result<(), Fail> {
    let mut sessions = opened(rt.alloc())?;
    assert!(rt; sessions.give(0, &steps(rt.alloc(), 1000)?).is_ok());
    for count in [999, 998, 700, 641, 640, 639, 64, 63, 1] {
        let lines = sessions.back(0, count).map_err(|_| "not back")?;
        let mut other = opened(rt.alloc())?;
        let wanted = other
            .give(0, &steps(rt.alloc(), count)?)
            .map_err(|_| "not given")?;
        assert!(rt; lines.as_slice() == wanted.as_slice());
    }
    Ok(())
}

#[test]
fn takes_no_more_inputs_than_a_session_may_have(rt: HostRuntime) -> Result<(), Fail> {
    let mut sessions = opened(rt.alloc())?;
    let inputs = vec![in rt.alloc(); RIGHT; MOST_INPUTS]?;
    assert!(rt; sessions.give(0, &[RIGHT]).is_ok());
    assert!(rt;
        sessions
            .give(0, &inputs)
            .is_err_and(|why| why == SessionFault::TooMany)
    );
    assert!(rt; are(sessions.give(0, &[RIGHT]), TWO));
    assert!(rt; sessions.give(0, &inputs[2..]).is_ok());
    assert!(rt;
        sessions
            .give(0, &[RIGHT])
            .is_err_and(|why| why == SessionFault::TooMany)
    );
    assert!(rt;
        sessions
            .back(0, MOST_INPUTS + 1)
            .is_err_and(|why| why == SessionFault::TooFew)
    );
    assert!(rt; are(sessions.back(0, 2), TWO));
    assert!(rt;
        sessions
            .back(0, 3)
            .is_err_and(|why| why == SessionFault::TooFew)
    );
    Ok(())
}
