//! Copies that reuse memory.

ghost use Rattle.std.specs.Prelude.{◌≡◌, ◌≤◌, length, vec_capacity, OnOk, OnErr};

use crate::notes::Notes;
use crate::planes::Planes;
use std::alloc::AllocError;

/// Makes the notes and planes of a level equal to those of another. They reuse their memory if that is enough. Err: memory was refused, and
/// both are unchanged.
pub fn renew(
    notes: &mut Notes,
    planes: &mut Planes,
    other_notes: &Notes,
    other_planes: &Planes,
) -> Result<(), AllocError>
    ensures notes { OnOk result (notes.new ≡ other_notes.now) }
    ensures planes { OnOk result (planes.new ≡ other_planes.now) }
    ensures notes_kept { OnErr result (notes.new ≡ notes.old) }
    ensures planes_kept { OnErr result (planes.new ≡ planes.old) }
{
    if planes.has_room_of(other_planes) {
        notes.copy_from(other_notes)?;
        planes.overwrite(other_planes);
        return Ok(());
    }
    let copy = other_planes.copy()?;
    notes.copy_from(other_notes)?;
    *planes = copy;
    Ok(())
}

/// Makes room for `count` items in all. Err: memory was refused.
pub fn make_room<T>(items: &mut Vec<T>, count: usize) -> Result<(), AllocError>
    ensures items { items.new.items ≡ items.old.items }
    ensures room { OnOk result (count ≤ vec_capacity items.new) }
{
    let missing = count.saturating_sub(items.len());
    items.reserve(missing)
}

/// Replaces the items by copies of others. There must be room for them.
pub fn refill<T: Copy + Drop>(items: &mut Vec<T>, others: &[T])
    requires { length others.now ≤ vec_capacity items.old }
    ensures { items.new.items ≡ others.now }
{
    items.clear();
    match items.extend_from_slice(others) {
        Ok(()) => {}
        Err(_) => unreachable!(),
    }
}
