//! How many constants each sort has.
ghost use Rattle.std.specs.Prelude.{◌≡◌, length};
ghost use Rattle.ipa_spec.specs.Constants.{constants_of, constant_count};
ghost use Rattle.ipa_reduction.specs.Cases.{constant_counts};

use ipa_spec::laws::spec_is_fit;
use ipa_spec::{Constant, Spec};

/// How many constants each of the eight sorts has.
pub(crate) fn constant_counts(spec: &Spec) -> [u8; 8]
    ensures { result ≡ constant_counts spec.now }
{
    [
        constant_count(spec, 0),
        constant_count(spec, 1),
        constant_count(spec, 2),
        constant_count(spec, 3),
        constant_count(spec, 4),
        constant_count(spec, 5),
        constant_count(spec, 6),
        constant_count(spec, 7),
    ]
}

// How many constants a sort has.
fn constant_count(spec: &Spec, sort: u8) -> u8
    ensures { result ≡ constant_count spec.now sort }
{
    spec_is_fit(spec);
    count_of(spec.constants().as_slice(), sort) as u8
}

// How many of the constants are of a sort.
fn count_of(constants: &[Constant], sort: u8) -> usize
    ensures { result ≡ length (constants_of constants.now sort) }
{
    constants
        .iter()
        .filter(|constant| constant.sort == sort)
        .count()
}
