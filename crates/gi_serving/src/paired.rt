//! What came of a call at each side, where both may be refused.

ghost use Rattle.std.specs.Prelude.{◌≡◌, IfOk, IsOk, Ok};

use std::alloc::AllocError;

/// Both values, where neither is refused.
pub(crate) fn both_of<A: Drop, B: Drop>(
    ours: Result<A, AllocError>,
    theirs: Result<B, AllocError>,
) -> Result<(A, B), AllocError>
    ensures ours { IfOk result (λ both. ours ≡ Ok both.0) }
    ensures theirs { IfOk result (λ both. theirs ≡ Ok both.1) }
    ensures both { IsOk ours → IsOk theirs → IsOk result }
{
    let ours = ours?;
    let theirs = theirs?;
    Ok((ours, theirs))
}
