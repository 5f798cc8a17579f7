ghost use Rattle.std.specs.Prelude.{◌≡◌, ◌<◌, ◌^◌, ◌==◌};
ghost use Rattle.std.specs.List.Sorted.{IsNonDecreasing};
ghost use Rattle.xdb_stripes.specs.Stripes.{stripe};
ghost use Rattle.xdb_stripes.specs.Steps.{IsEnd};

/// The end of a number's stripe: the least stripe above the number, or 2^64 - 1 where there is
/// none. By one binary search.
pub fn end_of_stripe(stripes: &[u64], number: u64) -> u64
    requires rising { IsNonDecreasing stripes.now }
    requires small { number < 2 ^ 56 }
    ensures { IsEnd stripes.now number result }
{
    let at = stripes.partition_point(|stripe| *stripe <= number);
    if at < stripes.len() {
        stripes[at]
    } else {
        u64::MAX
    }
}

/// Whether the number lies below all stripes.
pub fn is_lowest(stripes: &[u64], number: u64) -> bool
    requires { IsNonDecreasing stripes.now }
    ensures { result ≡ (stripe stripes.now number == 0) }
{
    stripes.is_empty() || number < stripes[0]
}
