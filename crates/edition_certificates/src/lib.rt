//! What an auditor keeps of a sheet: lines that say what its variables stand for, `?x ~ type`, and which names any dimension may stand for, `?x: DType`. They
//! are judged over the sheet's set with nothing solved, so whoever trusts the judge needs no solver.
#![tactic(auto)]

pub mod inner;
pub mod theorems;

ghost use Rattle.std.specs.Prelude.{◌≡◌, IfOk};
ghost use Rattle.rules.specs.Refusals.{told};
ghost use Rattle.edition_certificates.specs.Certificates.{verified, judged};

use inner::{Proposal, proposed};
use judge_pairs::judge_pairs;
use records::is_set;
use rules::{Refusal, WORK_WORDS};
use std::alloc::{AllocError, Global};

/// Does what a certificate's lines propose make each constraint of the set true? Both are sets of records over one table of names, as the reader of sheets
/// gives them. Yes is said only where it does (`theorems::verified_is_true`); nothing is solved.
///
/// Refusals, in this order: 10, 8 and 1 of the certificate's records as of any set; 12 where a line of it is neither `?x ~ type` nor `?x: DType`; then those of
/// the judge: 8 and 1 of the set, 1 where a variable is bound twice or bounds don't rise by their names' bytes, 4, 7, 8.
pub fn verify(
    alloc: Global,
    pool: &[u8],
    table: &[u32],
    set: &[u32],
    certificate: &[u32],
) -> Result<Result<bool, Refusal>, AllocError>
    ensures { IfOk result (λ answer. told answer ≡ verified pool.now table.now set.now certificate.now) }
{
    match is_set(pool, table, certificate) {
        Ok(()) => match proposed(alloc, pool, table, certificate)? {
            Some(proposal) => Ok(judge_proposal(pool, table, set, certificate, &proposal)),
            None => Ok(Err(Refusal::NotGrammar)),
        },
        Err(why) => Ok(Err(why)),
    }
}

// The judge on what the lines of a certificate propose.
fn judge_proposal(
    pool: &[u8],
    table: &[u32],
    set: &[u32],
    certificate: &[u32],
    proposal: &Proposal,
) -> Result<bool, Refusal>
    ensures { told result ≡ judged pool.now table.now set.now certificate.now (proposal.now.pairs.items) (proposal.now.bounds.items) }
{
    let mut work = [0; WORK_WORDS];
    judge_pairs(
        pool,
        table,
        set,
        &proposal.pairs,
        certificate,
        &proposal.bounds,
        &mut work,
    )
}
