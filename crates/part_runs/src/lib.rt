// Parts laid into a page and read from it, alone and in runs, the same for every kind.
// What lays answers a place and lends no slice: it promises what all of the caller's page then holds, and a slice that is lent out would leave the rest unsaid.
#![tactic(auto)]

ghost use Rattle.std.specs.Prelude.{◌≡◌, ℕ, ◌+◌, ◌*◌, ◌<◌, ◌≤◌, List, length, if◌then◌else◌, Some, None, nat_le, slice_index_or};
ghost use Rattle.std.specs.Option.{option_map};
ghost use Rattle.std.specs.List.{flat_map};
ghost use Rattle.part_runs.specs.Runs.{end_within, laid_if_room, over, part_bytes};

use parts::part::Part;

// The place after `count` parts of `width` bytes from `at` on, if a page of `len` bytes holds them.
fn end_within(len: usize, at: usize, count: usize, width: usize) -> Option<usize>
    ensures { result ≡ end_within len at (count * width) }
{
    let end = at.checked_add(count.checked_mul(width)?)?;
    if end <= len { Some(end) } else { None }
}

// Lays one part at `at`, where it has room, and answers the place after it.
fn put<P: Part>(part: &P, page: &mut [u8], at: usize) -> usize
    requires { at + P.Part.WIDTH ≤ length page.old }
    ensures place { result ≡ at + P.Part.WIDTH }
    ensures page { page.new ≡ over page.old at (P.Part.laid part.now) }
{
    let end = at + P::WIDTH;
    let _ = part.lay(&mut page[at..end]);
    end
}

// Lays one part at `at` and answers the place after it. Where it has no room, answers `None` and leaves the page.
pub fn lay_part<P: Part>(part: &P, page: &mut [u8], at: usize) -> Option<usize>
    ensures place { result ≡ end_within (length page.old) at P.Part.WIDTH }
    ensures page { page.new ≡ laid_if_room page.old at P.Part.WIDTH (P.Part.laid part.now) }
{
    end_within(page.len(), at, 1, P::WIDTH)?;
    Some(put(part, page, at))
}

// Lays a run of parts from `at` on and answers the place after it. Where it has no room, answers `None` and leaves the page.
pub fn lay_run<P: Part>(parts: &[P], page: &mut [u8], at: usize) -> Option<usize>
    ensures place { result ≡ end_within (length page.old) at (length parts.now * P.Part.WIDTH) }
    ensures page { page.new ≡ laid_if_room page.old at (length parts.now * P.Part.WIDTH) (flat_map P.Part.laid parts.now) }
{
    end_within(page.len(), at, parts.len(), P::WIDTH)?;
    Some(put_run(parts, page, at))
}

// Lays a run of parts from `at` on, where it has room, and answers the place after it.
// Page and place are no struct: it would hold the page by `&mut`, have no invariant, and ask for room at each call all the same.
pub fn put_run<P: Part>(parts: &[P], page: &mut [u8], at: usize) -> usize
    requires { at + length parts.now * P.Part.WIDTH ≤ length page.old }
    ensures place { result ≡ at + length parts.now * P.Part.WIDTH }
    ensures page { page.new ≡ over page.old at (flat_map P.Part.laid parts.now) }
{
    let mut place = at;
    for part in parts {
        place = put(part, page, place);
    }
    place
}

// The `width` bytes of part `k` of the run that begins at `at`, if the page has them.
fn bytes_of_part(page: &[u8], at: usize, k: usize, width: usize) -> Option<&[u8]>
    ensures { option_map (λ x. x.now) result ≡ (if nat_le (at + k * width + width) (length page.now) then Some (part_bytes width page.now at k) else None) }
{
    let start = end_within(page.len(), at, k, width)?;
    page[start..].get(..width)
}

// Part `k` of the run that begins at `at`: the part that its bytes are, if they are one. Where the page ends before them, they are none.
// From a page over which a run of parts was laid at `at`, whatever else it holds, that is the very part.
pub fn part_of_run<P: Part>(page: &[u8], at: usize, k: usize) -> Option<P>
    ensures read { result ≡ P.Part.reads (part_bytes P.Part.WIDTH page.now at k) }
    ensures back { (old : List ℕ) (xs : List P) (x : P) → at + length xs * P.Part.WIDTH ≤ length old → page.now ≡ over old at (flat_map P.Part.laid xs) → k < length xs → x ≡ slice_index_or xs k x → result ≡ Some x }
{
    P::read(bytes_of_part(page, at, k, P::WIDTH)?)
}
