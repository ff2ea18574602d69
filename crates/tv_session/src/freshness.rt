//! Whether the views that are handed in stand as the description declares them.

ghost use Rattle.std.specs.Prelude.{◌≡◌, ◌≤◌, ◌+◌, length, ◌<◌, ◌^◌};
ghost use Rattle.tv_session.specs.Freshness.{IsFirstMismatch, IsFirstStale, IsFreshBodyFor, IsFreshFor};

use tv_group::GroupOf;
use tv_model::{Desc, Dialog, Window};
use tv_view::View;
use tv_window::WindowOf;

// The first of the windows that isn't as declared, is missing or is one too many, where the first of all has the place.
fn first_stale_window<V: View>(
    declared: &[Window],
    windows: &[WindowOf<V>],
    place: usize,
) -> Option<usize>
    requires { place + length declared.now < 2 ^ 64 }
    ensures { IsFirstStale (IsFreshFor V.meaning) place declared.now windows.now result }
{
    match (declared.split_first(), windows.split_first()) {
        (None, None) => None,
        (Some((own, others)), Some((window, behind)))
            if window.is_fresh(&own.node, own.views.as_slice()) => {
            first_stale_window(others, behind, place + 1)
        }
        _ => Some(place),
    }
}

// The same for the bodies of dialogs.
fn first_stale_body<V: View>(
    declared: &[Dialog],
    bodies: &[GroupOf<V>],
    place: usize,
) -> Option<usize>
    requires { place + length declared.now < 2 ^ 64 }
    ensures { IsFirstStale (IsFreshBodyFor V.meaning) place declared.now bodies.now result }
{
    match (declared.split_first(), bodies.split_first()) {
        (None, None) => None,
        (Some((own, others)), Some((body, behind)))
            if body.is_fresh(&own.node, own.views.as_slice()) => {
            first_stale_body(others, behind, place + 1)
        }
        _ => Some(place),
    }
}

/// Finds the first view, counted from 1, windows before bodies, that isn't as the description declares it, is missing
/// or is one too many.
pub(crate) fn first_mismatch<V: View>(
    desc: &Desc,
    windows: &[WindowOf<V>],
    bodies: &[GroupOf<V>],
) -> Option<usize>
    requires { length desc.now.windows + length desc.now.dialogs < 2 ^ 63 }
    ensures { IsFirstMismatch V.meaning desc.now windows.now bodies.now result }
{
    let declared = desc.windows.as_slice();
    match first_stale_window(declared, windows, 1) {
        Some(place) => Some(place),
        None => first_stale_body(desc.dialogs.as_slice(), bodies, declared.len() + 1),
    }
}
