//! Lists with more at their ends.

ghost use Rattle.std.specs.Prelude.{◌≡◌, ◌++◌, ◌∷◌, [], IfOk};

use crate::listed::Listed;
use std::alloc::AllocError;

/// A list with one more at its end.
pub fn pushed<T: Drop>(list: Listed<T>, value: T) -> Result<Listed<T>, AllocError>
    ensures { IfOk result (λ out. out ≡ list ++ value ∷ []) }
{
    let mut items = list.into_items();
    items.push(value)?;
    Ok(Listed::new(items))
}

/// A list with another at its end.
pub fn joined<T: Drop>(list: Listed<T>, more: Listed<T>) -> Result<Listed<T>, AllocError>
    ensures { IfOk result (λ out. out ≡ list ++ more) }
{
    let mut items = list.into_items();
    for item in more.into_items() {
        items.push(item)?;
    }
    Ok(Listed::new(items))
}
