//! How many ways there are to give classes to some variables of one sort.
//!
//! One variable more takes one of the classes in use, and as many are left for the others; or the next new class, and
//! the others then have one more to choose from. So the ways for one more variable come from those for the others, with
//! each number of classes in use.
ghost use Rattle.std.specs.Prelude.{◌≡◌, ◌+◌, ◌≤◌, ◌<◌, ◌^◌, ◌==◌, count_by, length};
ghost use Rattle.ipa_ground.specs.PatternCounts.{ways, AreWays};

/// The number of ways to give classes to so many variables of one sort, of which so many classes are in use.
pub(crate) fn ways(variables: usize, used: u8) -> u64
    requires few { variables ≤ 12 }
    requires used { used ≤ 4 }
    ensures value { result ≡ ways variables used }
    ensures bound { result ≤ 16 ^ variables }
{
    let mut row = [1; 17];
    for count in 0..variables {
        add_variable(&mut row, count);
    }
    row[used as usize]
}

// From the ways for so many variables, by the number of classes in use, to those for one more.
fn add_variable(row: &mut [u64; 17], count: usize)
    requires few { count < 12 }
    requires row { AreWays row.old count }
    ensures { AreWays row.new (count + 1) }
{
    for used in 0..16 - count {
        row[used] = used as u64 * row[used] + row[used + 1];
    }
}

/// The number of variables of a sort.
pub(crate) fn variables_of(sorts: &[u8], sort: u8) -> usize
    ensures { result ≡ count_by (λ other. other == sort) sorts.now }
{
    sorts.iter().filter(|other| **other == sort).count()
}
