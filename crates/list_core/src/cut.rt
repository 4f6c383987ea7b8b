//! Lists stored one after another in a single list, with the index where each of them ends.

ghost use Rattle.std.specs.Prelude.{◌≡◌, ◌<◌, length, slice_get, Some};
ghost use Rattle.list_core.specs.Cut.{cut, start_at, EndsAt};

/// Returns the index where part `number` starts, if the parts end at `ends`. Parts are counted from 0.
pub fn start_at(ends: &[usize], number: usize) -> usize
    requires { number < length ends.now }
    ensures { result ≡ start_at 0 ends.now number }
{
    if number == 0 { 0 } else { ends[number - 1] }
}

/// Returns the part at the given index, if the parts end at `ends`. Each end fits 32 bits.
#[inline(always)]
pub fn part_at<'a, T>(items: &'a [T], ends: &[u32], place: usize) -> &'a [T]
    requires place { place < length ends.now }
    requires ends { EndsAt 0 ends.now (length items.now) }
    ensures { slice_get (cut 0 ends.now items.now) place ≡ Some result.now }
{
    &items[start_of(ends, place)..ends[place] as usize]
}

/// Returns what `start_at` returns, for ends of 32 bits.
#[inline(always)]
pub fn start_of(ends: &[u32], number: usize) -> usize
    requires { number < length ends.now }
    ensures { result ≡ start_at 0 ends.now number }
{
    if number == 0 {
        0
    } else {
        ends[number - 1] as usize
    }
}
