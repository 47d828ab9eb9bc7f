ghost use Rattle.std.specs.Prelude.{◌≡◌, ◌<◌, ◌≤◌, ◌+◌, ◌++◌, nat_lt, [], ◌∷◌, length, filter, take, drop, IfOk, OnOk, OnErr, vec_capacity};
ghost use Rattle.std.specs.List.{prefix_len, slice_get};
ghost use Rattle.std.specs.Option.{option_to_list};
ghost use Rattle.dirty_board.specs.Tallying.{is_elem, with_failing, AreRising};

use crate::moves::insert_within;
use audit_model::Failing;
use ifc_base::InstId;

/// How many of these elements come before this one. `O(log n)` in their number.
fn place_before(failing: &[Failing], elem: InstId) -> usize
    requires { AreRising failing.now }
    ensures value { result ≡ prefix_len (λ f. nat_lt f.elem elem) failing.now }
    ensures within { result ≤ length failing.now }
{
    failing.partition_point(
        |one: &Failing| -> bool
            ensures { result ≡ nat_lt one.now.elem elem }
        { one.elem < elem },
    )
}

/// Whether it is this element that stands at the place.
fn stands_at(failing: &[Failing], place: usize, elem: InstId) -> bool
    ensures { result ≡ is_elem elem (slice_get failing.now place) }
{
    match failing.get(place) {
        None => false,
        Some(one) => one.elem == elem,
    }
}

/// Takes the element out, if it is among these, and answers its place. `O(log n)`, and a move of those
/// behind it.
pub fn forget(failing: &mut Vec<Failing>, elem: InstId) -> usize
    requires { AreRising failing.old.items }
    ensures front { take result failing.new.items ≡ filter (λ f. nat_lt f.elem elem) failing.old.items }
    ensures back { drop result failing.new.items ≡ filter (λ f. nat_lt elem f.elem) failing.old.items }
    ensures within { result ≤ length failing.new.items }
    ensures fewer { length failing.new.items ≤ length failing.old.items }
    ensures capacity { vec_capacity failing.new ≡ vec_capacity failing.old }
{
    let place = place_before(failing, elem);
    if stands_at(failing, place, elem) {
        let _ = failing.remove(place);
    }
    place
}

/// Puts this in the place of what was said of the element, where there is memory for it. `O(log n)`,
/// and a move of those behind it.
pub fn put(failing: &mut Vec<Failing>, elem: InstId, failed: Option<Failing>)
    requires rising { AreRising failing.old.items }
    requires memory { length failing.old.items < vec_capacity failing.old }
    ensures { failing.new.items ≡ with_failing elem failed failing.old.items }
{
    let place = forget(failing, elem);
    if let Some(failed) = failed {
        insert_within(failing, place, failed);
    }
}
