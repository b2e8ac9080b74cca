//! A sample, read.
use crate::samples::Sample;
use ipa_reader::{DocFault, Document, read_document};
use ipa_spec::Spec;
use ipa_text::Page;
use std::alloc::{AllocError, Global};
use thiserror::Error;

/// The length of the longest sample.
const LONGEST: usize = 4_194_304;

/// Why a sample is not read.
#[derive(Clone, Copy, Debug, Drop, Error)]
pub enum SampleFault {
    /// It has more than 4194304 bytes.
    #[error("the sample is too long")]
    TooLong,
    /// It is refused at this line.
    #[error("the sample is refused at line {line}")]
    Refused { line: u32 },
    /// Memory ran out.
    #[error("out of memory")]
    NoMemory,
}

impl From<AllocError> for SampleFault {
    fn from(_error: AllocError) -> SampleFault {
        SampleFault::NoMemory
    }
}

/// The text of a sample and its setup, on a page.
pub fn page_of(alloc: Global, sample: Sample) -> Result<Page, AllocError> {
    let mut page = Page::new(alloc);
    page.text(sample.text())?;
    page.text(sample.setup())?;
    Ok(page)
}

/// The document of a sample.
pub fn document_of(alloc: Global, sample: Sample) -> Result<Document, SampleFault> {
    let page = page_of(alloc, sample)?;
    let bytes = page.bytes();
    if bytes.len() > LONGEST {
        return Err(SampleFault::TooLong);
    }
    match read_document(alloc, bytes) {
        Ok(document) => Ok(document),
        Err(DocFault::At { line, .. }) => Err(SampleFault::Refused { line }),
        Err(DocFault::NoMemory) => Err(SampleFault::NoMemory),
    }
}

/// The specification of a sample.
pub fn spec_of(alloc: Global, sample: Sample) -> Result<Spec, SampleFault> {
    let document = document_of(alloc, sample)?;
    Ok(document.spec)
}
