ghost use Rattle.std.specs.Prelude.{◌≡◌, ◌≤◌, ℕ, max, nat_le, true, false, length};
ghost use Rattle.std.specs.List.{list_any};
ghost use Rattle.std.specs.List.Sorted.{IsPartitionPoint};
ghost use Rattle.pattern_tree.specs.Searching.{is_in_range, AreRising, raised};

/// The characters from the first to the last, both among them; none where the first is above the last.
#[derive(Clone, Copy, Debug)]
pub(crate) struct Range {
    pub(crate) first: char,
    pub(crate) last: char,
}

/// The higher of the two.
fn higher(one: char, other: char) -> char
    ensures { result ≡ max one other }
{
    if one < other { other } else { one }
}

/// Ends each range by the greatest last character up to it. `O(n)`.
fn raise(ranges: &mut [Range])
    ensures { ranges.new ≡ raised 0 ranges.old }
{
    let mut top = '\0';
    for at in 0..ranges.len() {
        let Range { first, last } = ranges[at];
        top = higher(top, last);
        ranges[at] = Range { first, last: top };
    }
}

/// Puts the ranges in order, for searches: the characters that are in one of them stay the same. `O(n log n)`.
pub(crate) fn put_in_order(ranges: &mut [Range])
    ensures rising { AreRising ranges.new }
    ensures same { (c : ℕ) → list_any (is_in_range c) ranges.new ≡ list_any (is_in_range c) ranges.old }
{
    ranges.sort_unstable_by_key(|range| range.first);
    raise(ranges);
}

/// How many ranges at the front begin at the character or below it. `O(log n)`.
fn begun(ranges: &[Range], c: char) -> usize
    requires { AreRising ranges.now }
    ensures bound { result ≤ length ranges.now }
    ensures point { IsPartitionPoint (λ range. nat_le range.first c ≡ true) (λ range. nat_le range.first c ≡ false)
        ranges.now result }
{
    ranges.partition_point(
        |range: &Range| -> bool
            ensures { result ≡ nat_le range.now.first c }
        { range.first <= c },
    )
}

/// Whether the character is in one of the ranges. `O(log n)`.
pub(crate) fn is_in_ranges(ranges: &[Range], c: char) -> bool
    requires { AreRising ranges.now }
    ensures { result ≡ list_any (is_in_range c) ranges.now }
{
    match begun(ranges, c) {
        0 => false,
        number => c <= ranges[number - 1].last,
    }
}
