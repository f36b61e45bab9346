//! Lists with room for what will be put into them.
ghost use Rattle.std.specs.Prelude.{◌≡◌, [], IfOk};

use gw_base::List;
use std::alloc::{AllocError, Global};

/// An empty list with room for that many values.
pub(crate) fn with_room<T>(alloc: Global, count: usize) -> Result<List<T>, AllocError>
    ensures { IfOk result (λ list. list ≡ []) }
{
    Ok(List::from_vec(Vec::with_capacity(alloc, count)?))
}
