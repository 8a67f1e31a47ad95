//! The lines of COLLISIONLAYERS, RULES and WINCONDITIONS.

ghost use Rattle.std.specs.Prelude.{◌++◌, ◌∷◌, ◌≡◌, OnOk, codes, flat_map};
ghost use Rattle.pz_source.specs.Layers.{layer_lines};
ghost use Rattle.json.specs.Token.{key};
ghost use Rattle.pz_describe.specs.Sections.{layer_tokens, rule_tokens, win_tokens};
ghost use Rattle.pz_describe.specs.Values.{array};

use crate::page::Page;
use pz_names::name_line::NameLine;
use pz_names::objects::is_blank;
use pz_source::layers::layer_lines;
use pz_source::rules::rule_words;
use pz_text::line::Line;
use pz_text::words::names_of;
use std::alloc::{AllocError, Global};

fn put_layer(page: &mut Page, line: &NameLine) -> Result<(), AllocError>
    ensures { OnOk result (page.new ≡ page.old ++ layer_tokens line.now) }
{
    page.begin_object()?;
    page.line(line.number)?;
    page.key("names")?;
    page.names(line.names.items())?;
    page.end_object()
}

fn put_layer_lines(page: &mut Page, lines: &[NameLine]) -> Result<(), AllocError>
    ensures { OnOk result (page.new ≡ page.old ++ flat_map layer_tokens lines.now) }
{
    for line in lines {
        put_layer(page, line)?;
    }
    Ok(())
}

/// Puts the layers.
pub(crate) fn put_layers(alloc: Global, page: &mut Page, lines: &[Line]) -> Result<(), AllocError>
    ensures { OnOk result (page.new ≡
        page.old ++ key (codes "layers") ∷ array (flat_map layer_tokens (layer_lines lines.now))) }
{
    let layers = layer_lines(alloc, lines)?;
    page.key("layers")?;
    page.begin_array()?;
    put_layer_lines(page, &layers)?;
    page.end_array()
}

fn put_rule(alloc: Global, page: &mut Page, line: &Line) -> Result<(), AllocError>
    ensures { OnOk result (page.new ≡ page.old ++ rule_tokens line.now) }
{
    if is_blank(line) {
        return Ok(());
    }
    let words = rule_words(alloc, line.text.items())?;
    page.begin_object()?;
    page.line(line.number)?;
    page.key("words")?;
    page.names(words.items())?;
    page.end_object()
}

fn put_rule_lines(alloc: Global, page: &mut Page, lines: &[Line]) -> Result<(), AllocError>
    ensures { OnOk result (page.new ≡ page.old ++ flat_map rule_tokens lines.now) }
{
    for line in lines {
        put_rule(alloc, page, line)?;
    }
    Ok(())
}

/// Puts the lines of RULES.
pub(crate) fn put_rules(alloc: Global, page: &mut Page, lines: &[Line]) -> Result<(), AllocError>
    ensures { OnOk result (page.new ≡ page.old ++ key (codes "rules") ∷ array (flat_map rule_tokens lines.now)) }
{
    page.key("rules")?;
    page.begin_array()?;
    put_rule_lines(alloc, page, lines)?;
    page.end_array()
}

fn put_win(alloc: Global, page: &mut Page, line: &Line) -> Result<(), AllocError>
    ensures { OnOk result (page.new ≡ page.old ++ win_tokens line.now) }
{
    if is_blank(line) {
        return Ok(());
    }
    let words = names_of(alloc, line.text.items())?;
    page.begin_object()?;
    page.line(line.number)?;
    page.key("words")?;
    page.names(words.items())?;
    page.end_object()
}

fn put_win_lines(alloc: Global, page: &mut Page, lines: &[Line]) -> Result<(), AllocError>
    ensures { OnOk result (page.new ≡ page.old ++ flat_map win_tokens lines.now) }
{
    for line in lines {
        put_win(alloc, page, line)?;
    }
    Ok(())
}

/// Puts the lines of WINCONDITIONS.
pub(crate) fn put_wins(alloc: Global, page: &mut Page, lines: &[Line]) -> Result<(), AllocError>
    ensures { OnOk result (page.new ≡ page.old ++ key (codes "wins") ∷ array (flat_map win_tokens lines.now)) }
{
    page.key("wins")?;
    page.begin_array()?;
    put_win_lines(alloc, page, lines)?;
    page.end_array()
}
