//! The line that tells what a search tells of a session.

ghost use Rattle.std.specs.Prelude.{◌≡◌, ◌++◌, IfOk, OnOk, codes, decimal, flat_map};
ghost use Rattle.pz_solutions.specs.Line.{answer_text, bounds_text, press_number, presses_text, session_line, solution_line, solution_text};

use crate::solution::Solution;
use pz_game::direction::Dir;
use pz_lines::parts::put_number;
use pz_solve::Answer;
use std::alloc::{AllocError, Global};

/// The number of a press, as a file of sessions has it.
fn press_number(input: Dir) -> u64
    ensures { result ≡ press_number input }
{
    match input {
        Dir::Up => 0,
        Dir::Left => 1,
        Dir::Down => 2,
        Dir::Right => 3,
        Dir::Action => 4,
    }
}

/// Adds the numbers of presses, each with a comma before it.
fn put_numbers(texts: &mut Vec<u8>, inputs: &[Dir]) -> Result<(), AllocError>
    ensures { OnOk result (texts.new.items ≡
        texts.old.items ++ flat_map (λ input. codes "," ++ decimal (press_number input)) inputs.now) }
{
    for input in inputs {
        put_number(texts, b",", press_number(*input))?;
    }
    Ok(())
}

/// Puts presses as a list: the first comma is left out.
fn put_presses(line: &mut Vec<u8>, inputs: &[Dir]) -> Result<(), AllocError>
    ensures { OnOk result (line.new.items ≡ line.old.items ++ presses_text inputs.now) }
{
    let mut numbers = Vec::new(*line.allocator());
    put_numbers(&mut numbers, inputs)?;
    let (_, behind) = numbers.split_at(numbers.len().min(1));
    line.extend_from_slice(b"[")?;
    line.extend_from_slice(behind)?;
    line.extend_from_slice(b"]")
}

/// Puts how far a search came.
fn put_bounds(line: &mut Vec<u8>, levels: usize, inputs: usize) -> Result<(), AllocError>
    ensures { OnOk result (line.new.items ≡ line.old.items ++ bounds_text levels inputs) }
{
    put_number(line, b"{\"outOfBounds\":{\"inputs\":", inputs as u64)?;
    put_number(line, b",\"levels\":", levels as u64)?;
    line.extend_from_slice(b"}}")?;
    Ok(())
}

/// Puts an answer.
fn put_answer(line: &mut Vec<u8>, answer: &Answer) -> Result<(), AllocError>
    ensures { OnOk result (line.new.items ≡ line.old.items ++ answer_text answer.now) }
{
    match answer {
        Answer::Solved(inputs) => {
            line.extend_from_slice(b"{\"solved\":")?;
            put_presses(line, inputs)?;
            line.extend_from_slice(b"}")
        }
        Answer::Unsolvable => line.extend_from_slice(b"{\"unsolvable\":true}"),
        Answer::OutOfBounds { levels, inputs } => put_bounds(line, *levels, *inputs),
    }
}

/// Puts what a search tells.
fn put_solution(line: &mut Vec<u8>, solution: &Solution) -> Result<(), AllocError>
    ensures { OnOk result (line.new.items ≡ line.old.items ++ solution_text solution.now) }
{
    match solution {
        Solution::Of(answer) => put_answer(line, answer),
        Solution::Over => line.extend_from_slice(b"{\"over\":true}"),
        Solution::Stopped => line.extend_from_slice(b"{\"stopped\":true}"),
        Solution::Refused => line.extend_from_slice(b"{\"refused\":true}"),
    }
}

/// The line of what a search tells. Err: memory was refused.
pub fn solution_line(alloc: Global, solution: &Solution) -> Result<Vec<u8>, AllocError>
    ensures { IfOk result (λ line. line.items ≡ solution_line solution.now) }
{
    let mut line = Vec::new(alloc);
    put_solution(&mut line, solution)?;
    line.extend_from_slice(b"\n")?;
    Ok(line)
}

/// Adds the line of what a search tells of the session of a number.
pub(crate) fn put_session_line(
    lines: &mut Vec<u8>,
    number: u64,
    solution: &Solution,
) -> Result<(), AllocError>
    ensures { OnOk result (lines.new.items ≡ lines.old.items ++ session_line number solution.now) }
{
    put_number(lines, b"{\"session\":", number)?;
    lines.extend_from_slice(b",\"solution\":")?;
    put_solution(lines, solution)?;
    lines.extend_from_slice(b"}\n")?;
    Ok(())
}
