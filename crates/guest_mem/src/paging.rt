//! Ranges of bytes, and the pages that they lie in.

ghost use Rattle.std.specs.Prelude.{◌≡◌, ◌+◌, ◌/◌, ◌%◌, ◌≤◌, ◌<◌, ◌^◌, ◌↔◌, IsTrue};
ghost use Rattle.vt_types.specs.Access.{pages_touched};
ghost use Rattle.vt_types.specs.Limits.{GUEST_PAGE};

use vt_types::GUEST_PAGE;

/// How many pages `count` bytes from `at` on touch: none where `count` is 0.
pub fn touched(at: usize, count: usize) -> usize
    requires { at + count < 2 ^ 64 }
    ensures value { result ≡ pages_touched at count }
    ensures fits { at / GUEST_PAGE + result < 2 ^ 64 }
{
    if count == 0 {
        0
    } else {
        (at + (count - 1)) / GUEST_PAGE - at / GUEST_PAGE + 1
    }
}

/// Whether there are bytes, and all of them lie in one page.
#[inline]
pub fn is_in_one_page(at: usize, count: usize) -> bool
    ensures { IsTrue result ↔ ((0 < count) × (at % GUEST_PAGE + count ≤ GUEST_PAGE)) }
{
    count > 0 && count <= GUEST_PAGE - at % GUEST_PAGE
}

/// How many of `count` bytes from `at` on lie in the page of the first byte.
pub fn first_piece(at: usize, count: usize) -> usize
    requires { 0 < count }
    ensures some { 0 < result }
    ensures inside { result ≤ count }
    ensures within { at % GUEST_PAGE + result ≤ GUEST_PAGE }
{
    (GUEST_PAGE - at % GUEST_PAGE).min(count)
}
