//! What the counts of a report are worth: theorems, each the contract of a function that does nothing.
ghost use Rattle.edition_checks.specs.Counts.{CertifiedThatAgreePass, CountsThatAgreePass};

/// Where a report counts as many accepted sheets as there are sheets, every sheet is accepted, and true by what its page prints: of one edition, or of each
/// sheet as an edition by itself (`counts-pass`).
pub fn counts_that_agree_pass()
    ensures { CountsThatAgreePass }
{}

/// Where as many sheets are verified as there are, each file is one that the certificate keeps, and true by it (`certified-pass`).
pub fn certified_counts_that_agree_pass()
    ensures { CertifiedThatAgreePass }
{}
