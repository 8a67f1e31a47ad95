//! A program while its lines are read.
#![tactic(auto, unfolding(crate::specs::Drafts::draft_with_group, crate::specs::Drafts::with_group_settled, crate::specs::Drafts::with_loop_opened, crate::specs::Drafts::with_loop_closed, crate::specs::Drafts::is_misplaced, crate::specs::Drafts::lateness, crate::specs::Drafts::before, crate::specs::Drafts::draft_with_rule, crate::specs::Drafts::joins, crate::specs::Drafts::rule_added, crate::specs::Drafts::loop_added, crate::specs::Drafts::line_added))]

ghost use Rattle.std.specs.Prelude.{◌≡◌, ◌++◌, true, None, IfOk, IfSome, OnOk, if◌then◌else◌};
ghost use Rattle.std.specs.Result.{result_map_both};
ghost use Rattle.pz_rules.specs.Drafts.{draft_with_group, with_group_settled, with_loop_opened, loop_of, with_loop, with_loop_closed, is_misplaced, lateness, with_instances, before, draft_with_rule, rule_added, loop_added, line_added};
ghost use Rattle.pz_grammar.specs.Parsed.{rule_of_tokens};
ghost use Rattle.pz_grammar.specs.Words.{tokens_of};
ghost use Rattle.pz_grammar.specs.Written.{is_whole};

use crate::expansion::{Expansion, expanded};
use crate::patterns::Patterns;
use crate::sides::{Growing, Sides, add_to_side, no_sides};
use pz_base::listed::Listed;
use pz_base::listing::joined;
use pz_base::name::Name;
use pz_game::game::Game;
use pz_game::rule_line::RuleLine;
use pz_grammar::grammar::parse;
use pz_grammar::loops::{LoopWord, loop_word, next_loop};
use pz_grammar::rule::Rule;
use pz_grammar::words::tokens_of;
use pz_plan::fault::RuleFault;
use pz_plan::prefix::is_late_rule;
use pz_program::group::Group;
use pz_program::instance::{Block, Instance};
use std::alloc::{AllocError, Global};

/// The last group, which a rule may join.
#[derive(Drop)]
pub struct OpenGroup {
    pub is_late: bool,
    pub instances: Listed<Instance>,
}

/// The finished blocks, the groups of the open loop, and the last group.
pub struct Draft {
    pub done: Sides<Block>,
    pub repeated: Option<Sides<Group>>,
    pub group: Option<OpenGroup>,
    pub pairs: u64,
}

// (written out, so that dropping a draft is a single call everywhere)
impl Drop for Draft {
    fn drop(self) {
        let Draft {
            done: _,
            repeated: _,
            group: _,
            pairs: _,
        } = self;
    }
}

impl Draft {
    /// The finished blocks.
    pub fn into_done(self) -> Sides<Block>
        ensures { result ≡ self.done }
    {
        let Draft {
            done,
            repeated: _,
            group: _,
            pairs: _,
        } = self;
        done
    }
}

/// Cuts a group into segments, and puts it in its place: into the open loop, or else as a block of its own.
fn place(draft: &mut Draft, group: OpenGroup) -> Result<(), AllocError>
    requires { draft.now.group ≡ None }
    ensures { OnOk result (draft.new ≡ draft_with_group draft.old group) }
{
    let OpenGroup { is_late, instances } = group;
    let group = Group::new(instances)?;
    match &mut draft.repeated {
        None => add_to_side(&mut draft.done, is_late, Block::One(group)),
        Some(groups) => add_to_side(groups, is_late, group),
    }
}

/// Puts the last group in its place, so that no rule can join it any more. Rule `rules.loop-places`.
fn settle(draft: &mut Draft) -> Result<(), AllocError>
    ensures draft { OnOk result (draft.new ≡ with_group_settled draft.old) }
    ensures group { OnOk result (draft.new.group ≡ None) }
{
    match draft.group.take() {
        None => Ok(()),
        Some(group) => place(draft, group),
    }
}

/// The draft once no rule can join the last group any more.
pub fn settled(mut draft: Draft) -> Result<Draft, AllocError>
    ensures draft { IfOk result (λ out. out ≡ with_group_settled draft) }
    ensures group { IfOk result (λ out. out.group ≡ None) }
{
    settle(&mut draft)?;
    Ok(draft)
}

/// Begins a loop.
fn open(alloc: Global, draft: &mut Draft) -> Result<(), AllocError>
    ensures { OnOk result (draft.new ≡ with_loop_opened draft.old) }
{
    settle(draft)?;
    draft.repeated = Some(no_sides(alloc));
    Ok(())
}

/// Adds the block of a part of a loop, if it has groups.
fn add_part(blocks: &mut Growing<Block>, groups: Growing<Group>) -> Result<(), AllocError>
    ensures { OnOk result (blocks.new ≡ blocks.old ++ loop_of groups) }
{
    let groups = groups.into_listed();
    if groups.items().is_empty() {
        return Ok(());
    }
    blocks.push(Block::Loop(groups))
}

/// Adds the blocks of a loop.
fn add_loop(done: &mut Sides<Block>, groups: Sides<Group>) -> Result<(), AllocError>
    ensures { OnOk result (done.new ≡ with_loop done.old groups) }
{
    let Sides { early, late } = groups;
    add_part(&mut done.early, early)?;
    add_part(&mut done.late, late)
}

/// Ends the open loop.
fn close(draft: &mut Draft) -> Result<(), AllocError>
    ensures { OnOk result (draft.new ≡ with_loop_closed draft.old) }
{
    settle(draft)?;
    match draft.repeated.take() {
        None => Ok(()),
        Some(groups) => add_loop(&mut draft.done, groups),
    }
}

/// Whether a rule asks to join a group but can't. Rule `rules.loop-joins`.
fn is_misplaced(draft: &Draft, rule: &Rule) -> bool
    ensures { result ≡ is_misplaced draft.now rule.now }
{
    rule.is_joined
        && match &draft.group {
            None => true,
            Some(group) => is_late_rule(rule) && !group.is_late,
        }
}

/// Whether a rule is late. A rule that joins a group is late if the group is. Rule `rules.late`.
fn lateness(draft: &Draft, rule: &Rule) -> bool
    ensures { result ≡ lateness draft.now rule.now }
{
    match &draft.group {
        Some(group) if rule.is_joined => group.is_late,
        _ => is_late_rule(rule),
    }
}

/// The last group, with the instances of a rule that joins it. Rule `rules.prefixes`.
fn with_instances(
    group: Option<OpenGroup>,
    rule: &Rule,
    more: Listed<Instance>,
) -> Result<OpenGroup, AllocError>
    ensures { IfOk result (λ out. out ≡ with_instances group rule.now more) }
{
    match group {
        None => Ok(OpenGroup {
            is_late: is_late_rule(rule),
            instances: more,
        }),
        Some(OpenGroup { is_late, instances }) => Ok(OpenGroup {
            is_late,
            instances: joined(instances, more)?,
        }),
    }
}

/// Settles a draft, unless the rule joins its last group.
fn settle_before(draft: &mut Draft, rule: &Rule) -> Result<(), AllocError>
    ensures draft { OnOk result (draft.new ≡ before draft.old rule.now) }
    ensures group { OnOk result (draft.new.group ≡ (if rule.now.is_joined then draft.old.group else None)) }
{
    if rule.is_joined {
        Ok(())
    } else {
        settle(draft)
    }
}

/// Adds the instances of a rule.
fn extend(draft: &mut Draft, rule: &Rule, more: Expansion) -> Result<(), AllocError>
    ensures { OnOk result (draft.new ≡ draft_with_rule draft.old rule.now more) }
{
    let Expansion { instances, pairs } = more;
    settle_before(draft, rule)?;
    draft.group = Some(with_instances(draft.group.take(), rule, instances)?);
    draft.pairs = pairs;
    Ok(())
}

/// Adds a rule, below which so many lines stand, or names its first fault.
fn add_rule(
    patterns: &mut Patterns,
    game: &Game,
    draft: &mut Draft,
    below: usize,
    rule: &Rule,
) -> Result<Result<(), RuleFault>, AllocError>
    requires whole { is_whole rule.now ≡ true }
    ensures { IfOk result (λ added. result_map_both (λ _. draft.new) (λ fault. fault) added ≡
        rule_added game.now draft.old below rule.now) }
{
    if is_misplaced(draft, rule) {
        return Ok(Err(RuleFault::BadRule));
    }
    let more = or_fault!(expanded(
        patterns,
        game.values(),
        game.layers(),
        below,
        draft.pairs,
        lateness(draft, rule),
        rule,
    )?);
    extend(draft, rule, more)?;
    Ok(Ok(()))
}

/// Adds a loop line, or names its fault. Rule `rules.loop-pairs`.
fn add_loop_line(
    alloc: Global,
    draft: &mut Draft,
    below: &[RuleLine],
    word: LoopWord,
) -> Result<Result<(), RuleFault>, AllocError>
    ensures { IfOk result (λ added. result_map_both (λ _. draft.new) (λ fault. fault) added ≡
        loop_added draft.old below.now word) }
{
    match word {
        LoopWord::Start => match next_loop(below) {
            Some(LoopWord::End) => Ok(Ok(open(alloc, draft)?)),
            _ => Ok(Err(RuleFault::BadRule)),
        },
        LoopWord::End => match &draft.repeated {
            Some(_) => Ok(Ok(close(draft)?)),
            None => Ok(Err(RuleFault::BadRule)),
        },
    }
}

/// The rule that the words of a line are, if they are one.
fn rule_of(alloc: Global, game: &Game, words: &[Name]) -> Result<Option<Rule>, AllocError>
    ensures rule { IfOk result (λ rule. rule ≡ rule_of_tokens (tokens_of game.now.names words.now)) }
    ensures whole { IfOk result (λ rule. IfSome rule (λ rule. is_whole rule ≡ true)) }
{
    let tokens = tokens_of(alloc, game, words)?;
    parse(alloc, &tokens)
}

/// Adds a line, or names its first fault.
fn add_line(
    patterns: &mut Patterns,
    game: &Game,
    draft: &mut Draft,
    below: &[RuleLine],
    words: &[Name],
) -> Result<Result<(), RuleFault>, AllocError>
    ensures { IfOk result (λ added. result_map_both (λ _. draft.new) (λ fault. fault) added ≡
        line_added game.now draft.old below.now words.now) }
{
    let alloc = patterns.alloc();
    if let Some(word) = loop_word(words) {
        return add_loop_line(alloc, draft, below, word);
    }
    match rule_of(alloc, game, words)? {
        Some(rule) => add_rule(patterns, game, draft, below.len(), &rule),
        None => Ok(Err(RuleFault::BadRule)),
    }
}

/// The draft with a line, or the first fault of the line. Err: memory was refused. Rule `checks.rules`.
pub fn line_added(
    patterns: &mut Patterns,
    game: &Game,
    mut draft: Draft,
    below: &[RuleLine],
    words: &[Name],
) -> Result<Result<Draft, RuleFault>, AllocError>
    ensures { IfOk result (λ out. out ≡ line_added game.now draft below.now words.now) }
{
    or_fault!(add_line(patterns, game, &mut draft, below, words)?);
    Ok(Ok(draft))
}
