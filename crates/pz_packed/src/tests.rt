//! Each public call, in each form.

use crate::Packed;
use std::test::Fail;

/// Whether these numbers are all there are, asked in each way.
fn holds(packed: &Packed, numbers: &[u32]) -> bool {
    if packed.len() != numbers.len() || !packed.has_at(0, numbers) {
        return false;
    }
    for index in 0..numbers.len() {
        if packed.get(index) != numbers[index] {
            return false;
        }
    }
    true
}

fn has_there(packed: &Packed, from: usize, numbers: &[u32]) -> bool {
    from <= packed.len() && numbers.len() <= packed.len() - from && packed.has_at(from, numbers)
}

fn cut(packed: &mut Packed, len: usize) {
    if len <= packed.len() {
        packed.truncate(len);
    }
}

#[test]
fn numbers_of_each_size_are_kept(rt: HostRuntime) -> Result<(), Fail> {
    let mut packed = Packed::new(rt.alloc());
    assert!(rt; holds(&packed, &[]));
    packed.extend(&[15, 0, 7])?;
    packed.push(9)?;
    assert!(rt; holds(&packed, &[15, 0, 7, 9]));
    packed.push(1)?;
    packed.extend(&[16, 255])?;
    assert!(rt; holds(&packed, &[15, 0, 7, 9, 1, 16, 255]));
    packed.extend(&[3, 256, 4294967295])?;
    assert!(rt; holds(&packed, &[15, 0, 7, 9, 1, 16, 255, 3, 256, 4294967295]));
    assert!(rt; has_there(&packed, 3, &[9, 1, 16]));
    assert!(rt; !has_there(&packed, 3, &[9, 1, 17]));
    cut(&mut packed, 3);
    assert!(rt; holds(&packed, &[15, 0, 7]));
    Ok(())
}

#[test]
fn pairs_are_cut_anywhere(rt: HostRuntime) -> Result<(), Fail> {
    let mut packed = Packed::new(rt.alloc());
    packed.extend(&[1, 2, 3, 4, 5])?;
    cut(&mut packed, 5);
    assert!(rt; holds(&packed, &[1, 2, 3, 4, 5]));
    cut(&mut packed, 4);
    assert!(rt; holds(&packed, &[1, 2, 3, 4]));
    cut(&mut packed, 3);
    assert!(rt; holds(&packed, &[1, 2, 3]));
    packed.push(6)?;
    assert!(rt; holds(&packed, &[1, 2, 3, 6]));
    cut(&mut packed, 0);
    assert!(rt; holds(&packed, &[]));
    Ok(())
}
