//! What a yes to a certificate is worth: theorems, each the contract of a function that does nothing.
ghost use Rattle.edition_certificates.specs.Cases.{Examples};
ghost use Rattle.edition_certificates.specs.Theorems.{VerifiedIsTrue};

/// Yes is said only where each constraint of the set is true under the bindings that the certificate's lines propose, put in at once, with any dimension
/// in the place of the names that they bound. No solver has a part in it: whoever wrote the certificate, the judge decides (`Verified`).
pub fn verified_is_true()
    ensures { VerifiedIsTrue }
{}

/// A few certificates, computed: one that is right, ones that aren't, one that binds a variable twice, one with another line (`Examples`).
pub fn examples_come_out()
    ensures { Examples }
{}
