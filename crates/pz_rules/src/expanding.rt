//! The program of a game.
#![tactic(auto, unfolding(crate::specs::Drafts::nothing, crate::specs::Drafts::program_of_draft, crate::specs::Drafts::program_of, crate::specs::Drafts::program_from))]

ghost use Rattle.std.specs.Prelude.{◌≡◌, ◌≢◌, Ok, Err, IfOk, IfErr, map, Contains};
ghost use Rattle.pz_base.specs.declared.fault.Code.TheVariants.{Memory};
ghost use Rattle.pz_rules.specs.Drafts.{nothing, program_of_draft, program_of};
ghost use Rattle.pz_plan.specs.Fault.{code_of};
ghost use Rattle.pz_program.specs.Instance.{IsProgramOf};

use crate::draft::{Draft, line_added, settled};
use crate::patterns::Patterns;
use crate::sides::{Sides, no_sides};
use pz_base::fault::SourceFault;
use pz_game::game::Game;
use pz_plan::fault::RuleFault;
use pz_program::instance::Program;
use std::alloc::{AllocError, Global};

/// The refusal of a source for a fault of a rule line.
fn refusal(fault: RuleFault, line: u32) -> SourceFault
    ensures { result ≡ record { code = code_of fault; line = line } }
{
    SourceFault {
        code: fault.code(),
        line,
    }
}

/// The draft before the first line.
fn nothing(alloc: Global) -> Draft
    ensures { result ≡ nothing }
{
    Draft {
        done: no_sides(alloc),
        repeated: None,
        group: None,
        pairs: 0,
    }
}

/// The program of a draft after the last line.
fn finished(draft: Draft) -> Result<Program, AllocError>
    ensures { IfOk result (λ program. program ≡ program_of_draft draft) }
{
    let Sides { early, late } = settled(draft)?.into_done();
    Ok(Program {
        early: early.into_listed(),
        late: late.into_listed(),
    })
}

/// The program of the lines of a game, or the first fault of one.
fn read_program(alloc: Global, game: &Game) -> Result<Result<Program, SourceFault>, AllocError>
    ensures { IfOk result (λ program. program ≡ program_of game.now) }
{
    let mut patterns = Patterns::new(alloc)?;
    let mut draft = nothing(alloc);
    let mut rest = game.rules();
    while let Some((line, below)) = rest.split_first() {
        draft = match line_added(&mut patterns, game, draft, below, line.words.items())? {
            Ok(next) => next,
            Err(fault) => return Ok(Err(refusal(fault, line.number))),
        };
        rest = below;
    }
    Ok(Ok(finished(draft)?))
}

/// The program of a game, or its first fault: the first fault of the first rule line that has one. `Memory`, with line 0, may
/// come in place of either.
pub fn expand(alloc: Global, game: &Game) -> Result<Program, SourceFault>
    ensures program { IfOk result (λ program. program_of game.now ≡ Ok program) }
    ensures owned { IfOk result (λ program. IsProgramOf game.now.layers program) }
    ensures refused { IfErr result (λ fault. fault.code ≢ Memory → program_of game.now ≡ Err fault) }
    ensures whole { IfErr result (λ fault. fault.code ≡ Memory → fault.line ≡ 0) }
    ensures lined { IfErr result
        (λ fault. fault.code ≢ Memory → Contains (map (λ line. line.number) game.now.rules) fault.line) }
{
    // (brings the proof the law of games)
    let _layers = game.layers();
    read_program(alloc, game)?
}
