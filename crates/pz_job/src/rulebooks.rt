//! The rulebooks of sources.
#![tactic(auto, unfolding(crate::specs::Rulebooks::rulebook_of))]

ghost use Rattle.std.specs.Prelude.{◌≡◌, ◌≢◌, IfOk, OnErr, Ok, Err};
ghost use Rattle.pz_rules.specs.Drafts.{program_of};
ghost use Rattle.std.specs.Arc.{arc_value};
ghost use Rattle.pz_job.specs.Rulebooks.{or_refused, rulebook_of, shared_in, AreKept, IsProgramFor};
ghost use Rattle.pz_job.specs.Sources.{IsKnown};

use crate::programs::Programs;
use crate::sources::{Known, Source};
use pz_base::fault::{Code, SourceFault};
use pz_case::item::Refusal;
use pz_case::rulebook::Rulebook;
use pz_game::game::Game;
use pz_program::instance::Program;
use pz_rules::expanding::expand;
use pz_source::reading::read_game;
use std::alloc::{AllocError, Global};
use std::collections::HashMap;
use std::sync::Arc;

/// What a source gives: its rulebook, or why its sessions are refused.
pub(crate) type Answer = Result<Arc<Rulebook>, Refusal>;

/// What a source with a fault gives. Want of memory is no fault of the source.
fn refused(fault: SourceFault) -> Result<Answer, AllocError>
    ensures refused { IfOk result
        (λ answer. (shared_in answer ≡ Err (Refusal.Source fault)) × (fault.code ≢ Code.Memory)) }
    ensures wanted { OnErr result (fault.code ≡ Code.Memory) }
{
    match fault.code {
        Code::Memory => Err(AllocError),
        _ => Ok(Err(Refusal::Source(fault))),
    }
}

/// What a game with a known program gives.
fn with_program(alloc: Global, game: Game, program: Arc<Program>) -> Result<Answer, AllocError>
    requires { IsProgramFor game (arc_value program) }
    ensures { IfOk result (λ answer. shared_in answer ≡ Ok (record { game = game; program = arc_value program })) }
{
    let rulebook = Arc::new(alloc, Rulebook::new(game, program))?;
    Ok(Ok(rulebook))
}

/// What a game gives when it is expanded now. Its program is kept.
fn with_new_program(
    programs: &mut Programs,
    alloc: Global,
    game: Game,
    program: Program,
) -> Result<Answer, AllocError>
    requires { IsProgramFor game program }
    ensures { IfOk result (λ answer. shared_in answer ≡ Ok (record { game = game; program = program })) }
{
    let program = Arc::new(alloc, program)?;
    let shared = Arc::try_clone(&program)?;
    let rulebook = Arc::new(alloc, Rulebook::new(game, shared))?;
    programs.keep(&rulebook, program)?;
    Ok(Ok(rulebook))
}

/// What a game gives when its program has to be made. A call drops the game, because it has many parts.
fn with_expansion(programs: &mut Programs, alloc: Global, game: Game) -> Result<Answer, AllocError>
    ensures { IfOk result (λ answer. shared_in answer ≡
        or_refused (program_of game) (λ program. Ok (record { game = game; program = program }))) }
{
    match expand(alloc, &game) {
        Ok(program) => with_new_program(programs, alloc, game, program),
        Err(fault) => {
            drop(game);
            refused(fault)
        }
    }
}

/// What a game gives with its rules. They are expanded unless a game before it has the same.
fn with_rules(programs: &mut Programs, alloc: Global, game: Game) -> Result<Answer, AllocError>
    ensures { IfOk result (λ answer. shared_in answer ≡
        or_refused (program_of game) (λ program. Ok (record { game = game; program = program }))) }
{
    match programs.program_for(&game) {
        Some(program) => match Arc::try_clone(program) {
            Ok(program) => with_program(alloc, game, program),
            Err(fault) => {
                drop(game);
                Err(fault)
            }
        },
        None => with_expansion(programs, alloc, game),
    }
}

/// What a source gives when it is read now.
fn read_rulebook(programs: &mut Programs, alloc: Global, source: &str) -> Result<Answer, AllocError>
    ensures { IfOk result (λ answer. shared_in answer ≡ rulebook_of source.now) }
{
    match read_game(alloc, source) {
        Ok(game) => with_rules(programs, alloc, game),
        Err(fault) => refused(fault),
    }
}

/// What a source gives when this is known of it.
fn answer_from(
    programs: &mut Programs,
    alloc: Global,
    text: &str,
    known: Known,
) -> Result<Answer, AllocError>
    requires { IsKnown text.now known }
    ensures { IfOk result (λ answer. shared_in answer ≡ rulebook_of text.now) }
{
    match known {
        Known::Nothing => read_rulebook(programs, alloc, text),
        Known::Read(game) => with_rules(programs, alloc, game),
        Known::Expanded(game, program) => with_new_program(programs, alloc, game, program),
        Known::Fault(fault) => refused(fault),
    }
}

/// The same answer once more: its rulebook is shared.
fn again(answer: &Answer) -> Result<Answer, AllocError>
    ensures { IfOk result (λ again. shared_in again ≡ shared_in answer.now) }
{
    match answer {
        Ok(rulebook) => {
            let rulebook = Arc::try_clone(rulebook)?;
            Ok(Ok(rulebook))
        }
        Err(refusal) => Ok(Err(*refusal)),
    }
}

/// What each source gave when it was read. A source that comes again is not read again, and its sessions share one rulebook.
#[derive(Drop)]
pub(crate) struct Rulebooks {
    answers: HashMap<String, Answer>,
    ghost are_kept: { AreKept answers },
}

impl Rulebooks {
    pub fn new(alloc: Global) -> Rulebooks {
        Rulebooks {
            answers: HashMap::new(alloc),
        }
    }

    /// What a source gives.
    pub fn answer(
        &mut self,
        programs: &mut Programs,
        alloc: Global,
        source: &str,
    ) -> Result<Answer, AllocError>
        ensures { IfOk result (λ answer. shared_in answer ≡ rulebook_of source.now) }
    {
        match self.answers.get(source) {
            Some(answer) => again(answer),
            None => self.read(programs, alloc, source),
        }
    }

    /// Takes over what is known of sources.
    pub fn take_over(
        &mut self,
        programs: &mut Programs,
        alloc: Global,
        sources: Vec<Source<'_>>,
    ) -> Result<(), AllocError> {
        for source in sources {
            self.add(programs, alloc, source)?;
        }
        Ok(())
    }

    fn add(
        &mut self,
        programs: &mut Programs,
        alloc: Global,
        source: Source<'_>,
    ) -> Result<(), AllocError> {
        let (text, known) = source.into_parts();
        let answer = answer_from(programs, alloc, text, known)?;
        self.keep(alloc, text, &answer)
    }

    /// What a new source gives. It is kept.
    fn read(
        &mut self,
        programs: &mut Programs,
        alloc: Global,
        source: &str,
    ) -> Result<Answer, AllocError>
        ensures { IfOk result (λ answer. shared_in answer ≡ rulebook_of source.now) }
    {
        let answer = read_rulebook(programs, alloc, source)?;
        self.keep(alloc, source, &answer)?;
        Ok(answer)
    }

    /// Keeps what a source gave.
    fn keep(&mut self, alloc: Global, source: &str, answer: &Answer) -> Result<(), AllocError>
        requires { shared_in answer.now ≡ rulebook_of source.now }
    {
        let text = String::from_str(alloc, source)?;
        let kept = again(answer)?;
        self.answers.insert(text, kept)?;
        Ok(())
    }
}
