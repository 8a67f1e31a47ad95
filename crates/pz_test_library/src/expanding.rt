//! The rules of a game, expanded: how many instances there are, in which order, and what each says.

use crate::drawing::drawn;
use crate::sample::{expect, game_of, program_of};
use pz_rules::expand;
use pz_source::{Code, Game, SourceFault};
use std::alloc::Global;
use std::test::Fail;

fn expect_blocks(alloc: Global, game: &Game, early: &str, late: &str) -> Result<(), Fail> {
    let program = program_of(alloc, game)?;
    let found = drawn(alloc, program.early())?;
    expect(found.as_str(), early)?;
    let found = drawn(alloc, program.late())?;
    expect(found.as_str(), late)
}

/// Fails a test if these rules have other blocks before or after the movement.
fn expect_program(alloc: Global, rules: &str, early: &str, late: &str) -> Result<(), Fail> {
    let game = game_of(alloc, rules, "", "p\n")?;
    expect_blocks(alloc, &game, early, late)
}

#[test]
fn has_an_instance_for_each_direction(rt: HostRuntime) -> Result<(), Fail> {
    expect_program(
        rt.alloc(),
        "[ > Player | Crate ] -> [ > Player | > Crate ]\n",
        "(^[^p|c]->[^p|^c];v[vp|c]->[vp|vc];<[<p|c]->[<p|<c];>[>p|c]->[>p|>c];)",
        "",
    )
}

#[test]
fn has_an_instance_for_each_direction_and_member(rt: HostRuntime) -> Result<(), Fail> {
    expect_program(
        rt.alloc(),
        "[ > Player | Thing ] -> [ > Player | > Thing ]\n",
        "(^[^p|c]->[^p|^c];^[^p|#]->[^p|^#];v[vp|c]->[vp|vc];v[vp|#]->[vp|v#];<[<p|c]->[<p|<c];<[<p|#]->[<p|<#];>[>p|c]->[>p|>c];>[>p|#]->[>p|>#];)",
        "",
    )
}

#[test]
fn ties_a_member_on_the_right_to_the_only_one_on_the_left(rt: HostRuntime) -> Result<(), Fail> {
    expect_program(
        rt.alloc(),
        "[ Mark | Thing ] -> [ Thing | Mark ]\n",
        "(^[m|c]->[c|m];^[m|#]->[#|m];v[m|c]->[c|m];v[m|#]->[#|m];<[m|c]->[c|m];<[m|#]->[#|m];>[m|c]->[c|m];>[m|#]->[#|m];)",
        "",
    )
}

#[test]
fn scans_single_cells_upward(rt: HostRuntime) -> Result<(), Fail> {
    expect_program(
        rt.alloc(),
        "[ > Player ] -> [ < Player ]\n",
        "(^[^p]->[vp];^[vp]->[^p];^[<p]->[>p];^[>p]->[<p];)",
        "",
    )
}

#[test]
fn keeps_equal_instances_once(rt: HostRuntime) -> Result<(), Fail> {
    expect_program(
        rt.alloc(),
        "[ Player ] -> [ Player Mark ]\n",
        "(^[p]->[pm];)",
        "",
    )
}

#[test]
fn has_an_instance_for_each_way_of_moving(rt: HostRuntime) -> Result<(), Fail> {
    expect_program(
        rt.alloc(),
        "[ moving Player ] -> [ moving Player ]\n",
        "(^[^p]->[^p];^[vp]->[vp];^[<p]->[<p];^[>p]->[>p];^[!p]->[!p];)",
        "",
    )
}

#[test]
fn varies_members_faster_than_directions(rt: HostRuntime) -> Result<(), Fail> {
    expect_program(
        rt.alloc(),
        "horizontal [ Player | Thing ] -> [ | ]\n",
        "(<[p|c]->[|];<[p|#]->[|];>[p|c]->[|];>[p|#]->[|];)",
        "",
    )
}

#[test]
fn keeps_a_group_without_instances(rt: HostRuntime) -> Result<(), Fail> {
    expect_program(rt.alloc(), "[ Player Wall ] -> [ Player Wall ]\n", "()", "")
}

#[test]
fn keeps_gaps_and_commands(rt: HostRuntime) -> Result<(), Fail> {
    expect_program(
        rt.alloc(),
        "right [ Player | ... | Wall ] -> [ Player | ... | Wall Mark ]\n+ right [ Player | Spike ] -> cancel\n",
        "(>[p|...|#]->[p|...|#m];>[p|s]->c;)",
        "",
    )
}

#[test]
fn parts_a_loop_in_early_and_late(rt: HostRuntime) -> Result<(), Fail> {
    expect_program(
        rt.alloc(),
        "startloop\n[ Mark ] -> [ Target ]\nlate [ Target ] -> [ Target Mark ]\nendloop\n",
        "{(^[m]->[o];)}",
        "{(^[o]->[om];)}",
    )
}

fn fault_in(alloc: Global, game: &Game) -> Option<SourceFault> {
    expand(alloc, game).err()
}

/// Fails a test if the first rule has another fault.
fn expect_fault(alloc: Global, rules: &str, code: Code) -> Result<(), Fail> {
    let game = game_of(alloc, rules, "", "p\n")?;
    let found = fault_in(alloc, &game);
    if found == Some(SourceFault { code, line: 26 }) {
        Ok(())
    } else {
        Err(Fail::new(format_args!("{rules}: {found:?}")))
    }
}

#[test]
fn names_the_fault_of_a_rule(rt: HostRuntime) -> Result<(), Fail> {
    let alloc = rt.alloc();
    expect_fault(alloc, "[ Mark ] -> [ Mark Thing ]\n", Code::AmbiguousRight)?;
    expect_fault(alloc, "[ Mark ] -> [ Crate Wall ]\n", Code::RightClash)?;
    expect_fault(alloc, "[ Mark | Mark ] -> [ Mark ]\n", Code::Shape)?;
    expect_fault(alloc, "[ Player | ... ] -> [ Player | ... ]\n", Code::Shape)?;
    expect_fault(
        alloc,
        "[ Player | ... | Wall | ... | Crate ] -> [ Player | ... | Wall | ... | Crate ]\n",
        Code::OutsideProfile,
    )?;
    expect_fault(alloc, "[ Player ] -> [ ] fly\n", Code::BadRule)?;
    expect_fault(
        alloc,
        "late [ > Player ] -> [ Player ]\n",
        Code::LateMovement,
    )?;
    expect_fault(alloc, "[ no @ ] -> [ Mark ]\n", Code::Mixed)?;
    expect_fault(alloc, "[ Ghost ] -> [ ]\n", Code::Unknown)?;
    expect_fault(alloc, "+ [ Player ] -> [ ]\n", Code::BadRule)
}
