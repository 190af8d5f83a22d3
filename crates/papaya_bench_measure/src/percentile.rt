//! The place of a percentile in a list of times.
ghost use Rattle.std.specs.Prelude.{◌≡◌, ◌*◌, ◌+◌, ◌<◌, ◌≤◌};

/// Returns the place of a percentile in a sorted list of `count` times, counted from 0. By
/// `reaches` and `least` it is the first place up to which the list has that many thousandths of
/// the times. `thousandths` is 1 to 1000; for an empty list the place is 0.
pub fn place_of(count: u32, thousandths: u16) -> usize
    ensures reaches { count * thousandths ≤ (result + 1) * 1000 }
    ensures least { 0 < count → 0 < thousandths → result * 1000 < count * thousandths }
{
    let parts = u64::from(count) * u64::from(thousandths);
    (parts.div_ceil(1000) as usize).saturating_sub(1)
}
