//! The calls that take a source.

use pz_rules::{Program, expand};
use pz_source::{Code, Game, SourceFault, read_game};
use std::alloc::{AllocError, Global};

fn fault_told(alloc: Global, fault: SourceFault) -> Result<String, AllocError> {
    match fault.code {
        Code::Memory => Err(AllocError),
        _ => format!(in alloc; "{fault:?}\n"),
    }
}

fn game_told(alloc: Global, game: &Game) -> Result<String, AllocError> {
    let (objects, rules, levels) = (
        game.objects().len(),
        game.rules().len(),
        game.levels().len(),
    );
    format!(in alloc; "{objects} objects, {rules} rules, {levels} levels\n")
}

fn program_told(alloc: Global, program: &Program) -> Result<String, AllocError> {
    let (early, late) = (program.early().len(), program.late().len());
    format!(in alloc; "{early} blocks, {late} late ones\n")
}

/// What `read_game` answers.
pub(crate) fn read(alloc: Global, source: &str) -> Result<String, AllocError> {
    match read_game(alloc, source) {
        Ok(game) => game_told(alloc, &game),
        Err(fault) => fault_told(alloc, fault),
    }
}

/// What `expand` answers for the game of a source.
pub(crate) fn expanded(alloc: Global, source: &str) -> Result<String, AllocError> {
    let game = match read_game(alloc, source) {
        Ok(game) => game,
        Err(fault) => return fault_told(alloc, fault),
    };
    match expand(alloc, &game) {
        Ok(program) => program_told(alloc, &program),
        Err(fault) => fault_told(alloc, fault),
    }
}
