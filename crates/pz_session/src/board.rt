//! The levels of a session between two links, and the links that lead on from them.
#![tactic(auto, unfolding(crate::specs::Board::frame_of, crate::specs::Board::start_link, crate::specs::Board::restart_link, crate::specs::Board::won_link, crate::specs::Board::kept_link, crate::specs::Board::reached_link, crate::specs::Board::effect, crate::specs::Board::press_link, crate::specs::Board::tick_link, crate::specs::Board::undo_link, crate::specs::Board::first_link, crate::specs::Board::with_past))]

ghost use Rattle.std.specs.Prelude.{◌≡◌, ◌≢◌, ◌<◌, ◌+◌, true, not, if◌then◌else◌, length, IfOk, IfErr, IfSome, OnOk, Ok, Err};
ghost use Rattle.pz_program.specs.Commands.{has, cancel, checkpoint};
ghost use Rattle.pz_game.specs.Level.{is_playable, entry_at};
ghost use Rattle.pz_program.specs.Instance.{IsProgramOf};
ghost use Rattle.pz_sheet.specs.Grid.{IsOfGame};
ghost use Rattle.pz_sheet.specs.Sameness.{same_grid};
ghost use Rattle.pz_bare.specs.Loading.{level_of_entry};
ghost use Rattle.pz_turn.specs.Step.{step_of};
ghost use Rattle.pz_turn.specs.declared.outcome.StepFault.TheVariants.{Memory};
ghost use Rattle.pz_case.specs.FirstLevel.{level_from};
ghost use Rattle.pz_session.specs.Chain.{GivesLink};

use crate::chain::{Frame, PlayFault, Shown};
use crate::labelled::Labelled;
use crate::level_texts::equals;
use crate::place::{put, put_aside, put_before};
use crate::standing::Standing;
use crate::turn::is_idle;
use bitflags::Flags;
use pz_bare::BareLevel;
use pz_bare::past::Past;
use pz_case::first_level::level_after;
use pz_case::item::{FrameKind, Verdict};
use pz_game::direction::Dir;
use pz_game::game::Game;
use pz_grid::Level;
use pz_level_text::text_writer::TextWriter;
use pz_program::commands::Commands;
use pz_program::instance::Program;
use pz_record::input::Input;
use pz_record::order::Order;
use pz_record::recorded::Recorded;
use pz_turn::outcome::StepFault;
use pz_turn::stepping::{StepEnd, step_in};
use pz_turn::win::won;
use std::alloc::{AllocError, Global};
use std::marker::Model;

/// A session between two links: the entry of LEVELS that is played, its level, the target of a restart, the past, and whether play is over.
/// `before` has the level before an input until that input's chain is over, and `differs` says whether the level differs from it, where
/// that is known. `spare` is memory for the next step. `labelled` says which of these levels has the labels that `texts` keeps.
pub struct Board<'a> {
    alloc: Global,
    game: &'a Game,
    program: &'a Program,
    order: Order,
    recorded: &'a Recorded,
    entry: usize,
    level: Level,
    target: BareLevel,
    past: Past,
    before: Option<Level>,
    differs: Option<bool>,
    spare: Option<Level>,
    is_over: bool,
    texts: TextWriter<'a>,
    labelled: Labelled,
}

impl<'a> Model for Board<'a> {
    ghost use Rattle.pz_session.specs.Board.{State};

    ghost Value = { State };

    ghost use Rattle.pz_session.specs.Inside.{state_in, IsKept};

    ghost view = { state_in };

    ghost invariant = { IsKept };
}

/// Written out: where a board goes out of scope, the prover then sees one call, not every path through its fields.
impl Drop for Board<'_> {
    fn drop(self) {
        let Board {
            alloc: _,
            game: _,
            program: _,
            order: _,
            recorded: _,
            entry: _,
            level: _level,
            target,
            past: _past,
            before,
            differs: _,
            spare,
            is_over: _,
            texts: _texts,
            labelled: _,
        } = self;
        drop(target);
        drop(before);
        drop(spare);
    }
}

/// A copy of a level with marks. Err: memory was refused.
fn marked(alloc: Global, bare: &BareLevel) -> Result<Level, AllocError>
    ensures { IfOk result (λ level. level.grid ≡ bare.now.grid) }
{
    Level::marked(alloc, bare.copy()?)
}

/// The level of an entry, and a copy of it as the target. Err: memory was refused.
fn opened(alloc: Global, game: &Game, entry: usize) -> Result<(Level, BareLevel), AllocError>
    requires playable { is_playable (entry_at game.now entry) ≡ true }
    requires within { entry < length game.now.levels }
    ensures level { IfOk result (λ levels. levels.0.grid ≡ level_of_entry game.now entry) }
    ensures target { IfOk result (λ levels. levels.1.grid ≡ level_of_entry game.now entry) }
{
    let target = BareLevel::load(alloc, game, entry)?;
    match marked(alloc, &target) {
        Ok(level) => Ok((level, target)),
        Err(fault) => Err(fault),
    }
}

/// Whether a level differs from the one before, where that may be known already.
fn differs(known: Option<bool>, before: &Level, level: &Level) -> bool
    requires { IfSome known (λ differs. same_grid before.now.grid level.now.grid ≡ not differs) }
    ensures { result ≡ not (same_grid before.now.grid level.now.grid) }
{
    match known {
        Some(differs) => differs,
        None => !before.same(level),
    }
}

impl<'a> Board<'a> {
    ghost use Rattle.pz_session.specs.Board.{loaded_at, at_level, frame_of, showing, showing_end, start_link, restart_link, ending, won_link, kept_link, reached_link, effect, press_link, tick_link, undo_to, undo_link, ticks_at_start, keeping};

    /// A session that has just loaded the level of an entry. Err: memory was refused.
    pub fn load(
        alloc: Global,
        game: &'a Game,
        program: &'a Program,
        order: Order,
        recorded: &'a Recorded,
        entry: usize,
    ) -> Result<Board<'a>, AllocError>
        requires playable { is_playable (entry_at game.now entry) ≡ true }
        requires within { entry < length game.now.levels }
        requires program_of { IsProgramOf game.now.layers program.now }
        ensures { IfOk result (λ board. board ≡ loaded_at game.now program.now order recorded.now entry) }
    {
        match opened(alloc, game, entry) {
            Ok((level, target)) => Ok(Board {
                alloc,
                game,
                program,
                order,
                recorded,
                entry,
                level,
                target,
                past: Past::new(alloc),
                before: None,
                differs: None,
                spare: None,
                is_over: false,
                texts: TextWriter::new(alloc, game, order),
                labelled: Labelled::Nothing,
            }),
            Err(fault) => Err(fault),
        }
    }

    /// Whether a tick follows the start, each load and each restart. Rule `play.start-ticks`.
    fn ticks_at_start(&self) -> bool
        ensures { result ≡ ticks_at_start self.now }
    {
        self.game.options().run_rules_on_level_start
    }

    /// A frame of the level.
    fn frame(&mut self, kind: FrameKind) -> Result<Frame, AllocError>
        ensures frame { IfOk result (λ frame. frame ≡ frame_of self.old kind) }
        ensures same { self.new ≡ self.old }
    {
        let seen = self.labelled.level(&self.level, &self.before, &self.spare);
        self.labelled = Labelled::Nothing;
        let level_text = match seen {
            Some(seen) => self.texts.write_after(seen.bare(), self.level.bare())?,
            None => self.texts.write(self.level.bare())?,
        };
        self.labelled = Labelled::Level;
        Ok(Frame { kind, level_text })
    }

    /// A link that shows the level. If `goes_on`, one more tick follows.
    fn show(&mut self, kind: FrameKind, goes_on: bool) -> Result<Shown, PlayFault>
        ensures { GivesLink (Ok (showing kind self.old goes_on)) self.new result }
    {
        let frame = self.frame(kind)?;
        Ok(Shown {
            first: Some(frame),
            second: None,
            goes_on,
        })
    }

    /// The first link of a session, which shows its level. Rule `play.start`.
    pub fn start(&mut self) -> Result<Shown, PlayFault>
        ensures { GivesLink (Ok (start_link self.old)) self.new result }
    {
        let goes_on = self.ticks_at_start();
        self.show(FrameKind::Start, goes_on)
    }

    /// Makes the level a copy of the target, and shows it. Rule `play.restart`.
    fn restart(&mut self) -> Result<Shown, PlayFault>
        ensures { GivesLink (Ok (restart_link self.old)) self.new result }
    {
        self.differs = None;
        self.labelled = self.labelled.behind();
        put(&mut self.level, marked(self.alloc, &self.target)?);
        let goes_on = self.ticks_at_start();
        self.show(FrameKind::Restart, goes_on)
    }

    /// Loads the level of an entry. It is the target too, and the past is empty.
    fn enter(&mut self, next: usize) -> Result<(), AllocError>
        requires playable { is_playable (entry_at self.old.game next) ≡ true }
        requires within { next < length self.old.game.levels }
        ensures { OnOk result (self.new ≡
            loaded_at self.old.game self.old.program self.old.order self.old.recorded next) }
    {
        let (level, target) = opened(self.alloc, self.game, next)?;
        self.entry = next;
        self.level = level;
        self.target = target;
        self.past.clear();
        self.before = None;
        self.labelled = Labelled::Nothing;
        self.is_over = false;
        Ok(())
    }

    /// Shows the frame of the step that wins. Then the next level is loaded and shown, or play is over. Rule `play.win`.
    fn win(&mut self, won: Frame) -> Result<Shown, PlayFault>
        ensures { GivesLink (Ok (won_link won self.old
            (level_from self.old.game (self.old.entry + 1)))) self.new result }
    {
        match level_after(self.game, self.entry) {
            Some(next) => {
                self.enter(next)?;
                let frame = self.frame(FrameKind::Load)?;
                Ok(Shown {
                    first: Some(won),
                    second: Some(frame),
                    goes_on: self.ticks_at_start(),
                })
            }
            None => {
                self.is_over = true;
                Ok(Shown {
                    first: Some(won),
                    second: None,
                    goes_on: false,
                })
            }
        }
    }

    /// Makes the level the target, if the commands have `checkpoint`. Rule `play.checkpoint`.
    fn set_target(&mut self, commands: Commands) -> Result<(), AllocError>
        ensures { OnOk result (self.new ≡
            record self.old { target = if has commands checkpoint then self.old.level else self.old.target }) }
    {
        if !commands.contains(Commands::CHECKPOINT) {
            return Ok(());
        }
        self.target.copy_from(self.level.bare())
    }

    /// Shows the level after a step that doesn't win. A checkpoint makes it the target. `again` asks for one more tick if the step changed
    /// the level. Rule `play.again`.
    fn keep(
        &mut self,
        kind: FrameKind,
        commands: Commands,
        changed: bool,
    ) -> Result<Shown, PlayFault>
        ensures { GivesLink (Ok (kept_link kind commands changed self.old)) self.new result }
    {
        self.set_target(commands)?;
        let goes_on = commands.contains(Commands::AGAIN) && changed;
        self.show(kind, goes_on)
    }

    /// The effect of a step that has led to the level. Cancel, restart and win, in this order, each exclude all after it. A step wins by
    /// `win` or by the win lines. Rules `play.commands`, `play.restart-command`.
    fn take(
        &mut self,
        kind: FrameKind,
        commands: Commands,
        changed: bool,
    ) -> Result<Shown, PlayFault>
        ensures { GivesLink (Ok (effect kind self.old
            (record { level = self.old.level; commands = commands; changed = changed }))) self.new result }
    {
        if commands.contains(Commands::CANCEL) {
            return self.show(kind, false);
        }
        if commands.contains(Commands::RESTART) {
            return self.restart();
        }
        if commands.contains(Commands::WIN) || won(self.game, &self.level) {
            let frame = self.frame(kind)?;
            return self.win(frame);
        }
        self.keep(kind, commands, changed)
    }

    /// Plays a step from the level, which stays as it is. A cancelled step ends with an equal level.
    fn turn(&mut self, input: Option<Dir>) -> Result<StepEnd, StepFault>
        ensures end { IfOk result
            (λ end. step_of self.old.game self.old.program self.old.level input ≡
            Ok (record { level = end.level.grid; commands = end.commands; changed = end.changed })) }
        ensures cancelled { IfOk result (λ end. has end.commands cancel ≡ true → end.level.grid ≡ self.old.level) }
        ensures game { IfOk result (λ end. IsOfGame self.old.game end.level.grid) }
        ensures fault { IfErr result
            (λ fault. fault ≢ Memory → step_of self.old.game self.old.program self.old.level input ≡ Err fault) }
        ensures same { self.new ≡ self.old }
    {
        self.labelled = self.labelled.at_level_only();
        let spare = self.spare.take();
        step_in(
            self.alloc,
            self.game,
            self.program,
            &self.level,
            spare,
            input,
        )
    }

    /// A press plays a step. Rule `play.press`.
    fn press(&mut self, dir: Dir) -> Result<Shown, PlayFault>
        ensures { GivesLink (press_link dir self.old) self.new result }
    {
        let end = self.turn(Some(dir))?;
        let StepEnd {
            level,
            commands,
            changed,
        } = end;
        put_before(&mut self.level, level, &mut self.before);
        self.differs = Some(changed);
        self.labelled = self.labelled.moved_to(Labelled::Before);
        self.take(FrameKind::Move, commands, changed)
    }

    /// A tick plays a step without a direction.
    pub fn tick(&mut self) -> Result<Shown, PlayFault>
        ensures { GivesLink (tick_link self.old) self.new result }
    {
        let end = self.turn(None)?;
        if is_idle(&end) {
            self.labelled = self.labelled.at_level_only();
            put_aside(&mut self.spare, end.level);
            return Ok(Shown {
                first: None,
                second: None,
                goes_on: false,
            });
        }
        let StepEnd {
            level,
            commands,
            changed,
        } = end;
        put_before(&mut self.level, level, &mut self.spare);
        self.differs = None;
        self.labelled = self.labelled.moved_to(Labelled::Spare);
        self.take(FrameKind::Tick, commands, changed)
    }

    /// Takes the last level of the past, if there is one, as the level. Rule `play.undo`.
    fn step_back(&mut self) -> Result<(), AllocError>
        ensures { OnOk result (self.new ≡ undo_to self.old self.old.past) }
    {
        if let Some(newest) = self.past.newest() {
            let level = marked(self.alloc, newest)?;
            put_before(&mut self.level, level, &mut self.spare);
            self.differs = None;
            self.labelled = self.labelled.moved_to(Labelled::Spare);
            self.past.forget();
        }
        Ok(())
    }

    /// No tick follows an undo. Rule `play.undo`.
    fn undo(&mut self) -> Result<Shown, PlayFault>
        ensures { GivesLink (Ok (undo_link self.old)) self.new result }
    {
        self.step_back()?;
        self.show(FrameKind::Undo, false)
    }

    /// A restart input. The level before it is kept for the past.
    fn start_again(&mut self) -> Result<Shown, PlayFault>
        ensures { GivesLink (Ok (restart_link (keeping self.old))) self.new result }
    {
        let target = marked(self.alloc, &self.target)?;
        put_before(&mut self.level, target, &mut self.before);
        self.differs = None;
        self.labelled = self.labelled.moved_to(Labelled::Before);
        let goes_on = self.ticks_at_start();
        self.show(FrameKind::Restart, goes_on)
    }
}

/// What can be seen of a board.
impl<'a> Board<'a> {
    ghost use Rattle.pz_session.specs.Board.{IsOneGame};

    /// The game that is played.
    pub fn game(&self) -> &'a Game
        ensures { result.now ≡ self.now.game }
    {
        self.game
    }

    /// The rules of the game.
    pub fn program(&self) -> &'a Program
        ensures { result.now ≡ self.now.program }
    {
        self.program
    }

    /// The order of cells in the texts of levels.
    pub fn order(&self) -> Order
        ensures { result ≡ self.now.order }
    {
        self.order
    }

    /// The level.
    pub fn level(&self) -> &Level
        ensures level { result.now.grid ≡ self.now.level }
        ensures game { IsOneGame self.now }
    {
        &self.level
    }

    /// Whether the last level was won.
    pub fn is_over(&self) -> bool
        ensures { result ≡ self.now.is_over }
    {
        self.is_over
    }
}

/// What is kept of a board while nothing is played.
impl<'a> Board<'a> {
    ghost use Rattle.pz_session.specs.Board.{IsOneGame};
    ghost use Rattle.pz_session.specs.Standing.{state_at, stood_in};

    /// Where the session stands between two inputs.
    pub fn leave(self) -> Standing
        ensures stood { result ≡ stood_in self.entry }
        ensures game { IsOneGame self.entry }
    {
        let Board {
            alloc: _,
            game: _,
            program: _,
            order: _,
            recorded: _,
            entry,
            level,
            target,
            past,
            before,
            differs: _,
            spare,
            is_over,
            texts: _texts,
            labelled: _,
        } = self;
        drop(before);
        drop(spare);
        Standing {
            entry,
            level,
            target,
            past,
            is_over,
        }
    }

    /// The session that stands there.
    pub fn resume(
        alloc: Global,
        game: &'a Game,
        program: &'a Program,
        order: Order,
        recorded: &'a Recorded,
        standing: Standing,
    ) -> Board<'a>
        requires { IsOneGame (state_at game.now program.now order recorded.now standing) }
        ensures { result ≡ state_at game.now program.now order recorded.now standing }
    {
        let Standing {
            entry,
            level,
            target,
            past,
            is_over,
        } = standing;
        Board {
            alloc,
            game,
            program,
            order,
            recorded,
            entry,
            level,
            target,
            past,
            before: None,
            differs: None,
            spare: None,
            is_over,
            texts: TextWriter::new(alloc, game, order),
            labelled: Labelled::Nothing,
        }
    }
}

/// What a player asks of its board. A call that plays a link leaves the state that the link leaves.
impl<'a> Board<'a> {
    ghost use Rattle.pz_session.specs.Board.{first_link, with_past, verdict_of};

    /// Plays the first link of an input. After play is over it only shows the won level. Rule `play.over`.
    pub fn begin(&mut self, input: Input) -> Result<Shown, PlayFault>
        ensures { GivesLink (first_link input self.old) self.new result }
    {
        if self.is_over {
            return self.show(FrameKind::Over, false);
        }
        match input {
            Input::Press(dir) => self.press(dir),
            Input::Undo => self.undo(),
            Input::Restart => self.start_again(),
            Input::Tick => self.tick(),
        }
    }

    /// Ends the chain of an input. After a press or a restart, the level before it goes on the past, unless the level is the same or
    /// another was loaded. Rule `play.past`.
    pub fn settle(&mut self) -> Result<(), AllocError>
        ensures { OnOk result (self.new ≡ with_past self.old) }
    {
        self.labelled = self.labelled.at_level_only();
        if let Some(before) = self.before.take() {
            if differs(self.differs, &before, &self.level) {
                self.past.push(before.bare())?;
            }
            put_aside(&mut self.spare, before);
        }
        Ok(())
    }

    /// The close of a session whose inputs were all played. Rule `play.close`.
    pub fn verdict(&self) -> Verdict
        ensures { result ≡ verdict_of self.now }
    {
        if equals(self.game, &self.level, self.recorded, self.order) {
            Verdict::Passed
        } else {
            Verdict::Differs
        }
    }
}
