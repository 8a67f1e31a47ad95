//! The lines of a file of sessions, for a host.

ghost use Rattle.std.specs.Prelude.{◌≡◌, ◌≢◌, Err, IfErr, IfOk, length};
ghost use Rattle.pz_entries.specs.declared.fault.FileFault.TheVariants as fault;
ghost use Rattle.pz_engine.specs.Sessions.{sessions_in};
ghost use Rattle.pz_lines.specs.Lines.{text_from, text_of};
ghost use Rattle.pz_stages.specs.declared.detail.Detail.TheVariants.{Firings, Stages};
ghost use Rattle.pz_export.specs.Lines.{AreStaged, IsAnswered, IsRefused, IsStaged, IsTold, IsToldWhy, begun_with, order_of};

use crate::outcome::{Outcome, REFUSED, played, refused};
use pz_engine::engine::{Played, lines, lines_from};
use pz_entries::fault::FileFault;
use pz_record::order::Order;
use pz_stages::detail::Detail;
use pz_stages::file::stages;
use std::alloc::Global;

/// The order that a host asks for.
pub(crate) fn order_of(number: u32) -> Order
    ensures { result ≡ order_of number }
{
    if number == 0 {
        Order::Rows
    } else {
        Order::Columns
    }
}

/// Puts bytes at the beginning of a room, if they fit.
pub(crate) fn begin_with(room: &mut [u8], bytes: &[u8])
    ensures { room.new ≡ begun_with bytes.now room.old }
{
    let count = bytes.len();
    if count <= room.len() {
        room[..count].copy_from_slice(bytes);
    }
}

/// Tells a host how a file was answered, and answers the number of bytes of the lines.
pub(crate) fn tell(
    answer: Result<Played, FileFault>,
    room: &mut [u8],
    outcome: &mut Outcome,
) -> usize
    ensures told { IfOk answer (λ played. IsTold played room.old room.new outcome.new result) }
    ensures told_why { IfErr answer (λ cause. IsToldWhy cause room.old room.new outcome.new result) }
{
    match answer {
        Ok(answer) => {
            *outcome = played(answer.passed);
            begin_with(room, &answer.lines);
            answer.lines.len()
        }
        Err(cause) => {
            *outcome = refused(cause);
            0
        }
    }
}

/// Plays the sessions of a file, the cells of each level by rows if the order is 0, and else by columns. The answer is the number
/// of bytes of their lines. If the room has so many, it begins with them. Otherwise the host asks again with a larger one, and
/// all is played again.
#[unsafe(no_mangle)]
pub extern "C" fn saxtegun_lines(
    alloc: Global,
    file: &[u8],
    order: u32,
    room: &mut [u8],
    outcome: &mut Outcome,
) -> usize
    ensures size { length room.new ≡ length room.old }
    ensures answered { outcome.new.status ≢ REFUSED →
        IsAnswered text_of (order_of order) file.now room.old room.new outcome.new result }
    ensures refused { outcome.new.status ≡ REFUSED → IsRefused file.now room.old room.new outcome.new result }
{
    tell(lines(alloc, file, order_of(order)), room, outcome)
}

/// The same, with only the lines of the items from an input on: the frames that are shown after so many inputs or more, and each
/// close.
#[unsafe(no_mangle)]
pub extern "C" fn saxtegun_frames(
    alloc: Global,
    file: &[u8],
    order: u32,
    from: u64,
    room: &mut [u8],
    outcome: &mut Outcome,
) -> usize
    ensures size { length room.new ≡ length room.old }
    ensures answered { outcome.new.status ≢ REFUSED →
        IsAnswered (text_from from) (order_of order) file.now room.old room.new outcome.new result }
    ensures refused { outcome.new.status ≡ REFUSED → IsRefused file.now room.old room.new outcome.new result }
{
    tell(
        lines_from(alloc, file, order_of(order), from),
        room,
        outcome,
    )
}

/// The lines of the stages of an input, told with this detail. No session of them has to pass.
fn staged(
    alloc: Global,
    file: &[u8],
    order: Order,
    detail: Detail,
    session: u32,
    number: u32,
) -> Result<Played, FileFault>
    ensures staged { IfOk result (AreStaged detail order file.now session number) }
    ensures refused { IfErr result (λ cause. cause ≢ fault.Memory → sessions_in file.now ≡ Err cause) }
{
    let lines = stages(
        alloc,
        file,
        order,
        detail,
        session as usize,
        number as usize,
    )?;
    Ok(Played {
        lines,
        passed: true,
    })
}

/// The stages of an input of a session, each by its number: a session from 0, an input from 1, and 0 for a session's start. The cells of
/// each level come by rows if the order is 0, and else by columns. The answer is the number of bytes of the lines. If the room has so many,
/// it begins with them. There are none of a session that isn't there, is refused or stopped before.
#[unsafe(no_mangle)]
pub extern "C" fn saxtegun_stages(
    alloc: Global,
    file: &[u8],
    order: u32,
    session: u32,
    number: u32,
    room: &mut [u8],
    outcome: &mut Outcome,
) -> usize
    ensures size { length room.new ≡ length room.old }
    ensures answered { outcome.new.status ≢ REFUSED →
        IsStaged Stages (order_of order) file.now session number room.old room.new outcome.new result }
    ensures refused { outcome.new.status ≡ REFUSED → IsRefused file.now room.old room.new outcome.new result }
{
    tell(
        staged(
            alloc,
            file,
            order_of(order),
            Detail::Stages,
            session,
            number,
        ),
        room,
        outcome,
    )
}

/// The same, and before each group or loop the firings of its instances: each instance that changed a cell, when, at which places, and the
/// level after it.
#[unsafe(no_mangle)]
pub extern "C" fn saxtegun_firings(
    alloc: Global,
    file: &[u8],
    order: u32,
    session: u32,
    number: u32,
    room: &mut [u8],
    outcome: &mut Outcome,
) -> usize
    ensures size { length room.new ≡ length room.old }
    ensures answered { outcome.new.status ≢ REFUSED →
        IsStaged Firings (order_of order) file.now session number room.old room.new outcome.new result }
    ensures refused { outcome.new.status ≡ REFUSED → IsRefused file.now room.old room.new outcome.new result }
{
    tell(
        staged(
            alloc,
            file,
            order_of(order),
            Detail::Firings,
            session,
            number,
        ),
        room,
        outcome,
    )
}
