use crate::specification::Occurs;
use ifc_base::{InstId, Listed, Numbers};

/// What one specification says of a model.
#[derive(Debug, Drop)]
pub struct Tally {
    /// The specification isn't for the model; then nothing is counted.
    pub skipped: bool,
    pub occurs: Occurs,
    /// How many elements it applies to.
    pub applicable: u32,
    /// Those that fail it, in ascending id.
    pub failing: Failings,
}

/// An element that fails a specification, with the numbers of the requirements that it doesn't meet.
/// They are none where the specification is prohibited.
#[derive(Debug, PartialEq, Eq, Drop)]
pub struct Failing {
    pub elem: InstId,
    pub requirements: Numbers,
}

/// The elements that fail a specification, in ascending id.
pub type Failings = Listed<Failing>;

/// The bytes of a report.
pub type ReportText = Listed<u8>;

/// The texts of reports, in the order of their publication.
pub type Texts = Listed<ReportText>;
