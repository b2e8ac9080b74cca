//! Canonical texts, and what becomes of them when they are read.
use ipa_canonical::print_spec;
use ipa_samples::{Sample, SampleFault, spec_of};
use std::alloc::Global;
use std::test::Fail;

/// Whether the specification of the one sample is printed as the other.
fn is_printed_as(alloc: Global, sample: Sample, other: Sample) -> Result<bool, Fail> {
    let spec = spec_of(alloc, sample)?;
    let printed = print_spec(alloc, &spec)?;
    Ok(printed.as_slice() == other.text().as_bytes())
}

#[test]
fn prints_canonical_texts_as_they_stand(rt: HostRuntime) -> Result<(), Fail> {
    for sample in [Sample::Tournament, Sample::Admins, Sample::Youngest] {
        assert!(rt; is_printed_as(rt.alloc(), sample, sample)?, "{sample:?}");
    }
    Ok(())
}

#[test]
fn refuses_a_printed_clause_that_wants_a_fact(rt: HostRuntime) -> Result<(), Fail> {
    assert!(rt; is_printed_as(rt.alloc(), Sample::Opened, Sample::Ajar)?);
    match spec_of(rt.alloc(), Sample::Ajar) {
        Ok(_) => assert!(rt; false),
        Err(fault) => assert!(rt; matches!(&fault, SampleFault::Refused { line: 2 })),
    }
    Ok(())
}
