//! What the lines of a certificate propose.
ghost use Rattle.std.specs.Prelude.{◌≡◌, ◌≤◌, ◌++◌, [], ◌∷◌, Some, IfOk};
ghost use Rattle.rules.specs.Base.{got, sum_of};
ghost use Rattle.rules.specs.Calls.{setCall};
ghost use Rattle.rules.specs.Trees.{sizeCon, var};
ghost use Rattle.rules.specs.Writing.{words, writeBound};
ghost use Rattle.edition_certificates.specs.Certificates.{lineOf, ofVariable, pairOf, nameOf, boundWords};
ghost use Rattle.edition_certificates.specs.Proposals.{Proposed, ProposedBy};

use std::alloc::{AllocError, Global};
use types::{Constraint, Constraints, Demand, Type};

/// What a line of a certificate says of a variable: the type that it stands for is the line's right side; any dimension may stand for it.
#[derive(Clone, Copy)]
pub enum Line {
    Binds(u32),
    Bounds(u32),
}

/// What a certificate proposes to the judge: pairs of a variable and the place of its type in the certificate, and records of bounds.
#[derive(Drop)]
pub struct Proposal {
    pub pairs: Vec<u32>,
    pub bounds: Vec<u32>,
}

// The line that says something of a variable, if a type is one.
fn of_variable(t: Type, binds: bool) -> Option<Line>
    ensures { result ≡ ofVariable binds t.entry.tree.0 }
{
    match t.variable() {
        Some(x) if binds => Some(Line::Binds(x)),
        Some(x) => Some(Line::Bounds(x)),
        None => None,
    }
}

// What a constraint says as a line of a certificate, if it can be one.
#[tactic(auto, unfolding(crate::specs::Certificates::lineOf))]
fn line_of(c: Constraint) -> Option<Line>
    ensures { result ≡ lineOf c.entry.tree.0 }
{
    match c.demand() {
        Demand::Equal(left, _) => of_variable(left, true),
        Demand::IsDimension(t) => of_variable(t, false),
        Demand::IsScalar(_) => None,
        Demand::HasField(_, _, _) => None,
    }
}

// The record of a bound, behind others.
#[tactic(auto, unfolding(rules::specs::Writing::words, rules::specs::Writing::writeBound, rules::specs::Writing::head))]
fn put_bound(bounds: &mut Vec<u32>, x: u32) -> Result<(), AllocError>
    ensures { IfOk result (λ _. bounds.new.items ≡ bounds.old.items ++ words (writeBound (var x) ∷ [])) }
{
    bounds.extend_from_slice(&[65_561, x, 0, 0])
}

impl Proposal {
    // What a line at a place says, behind what the lines before it do.
    fn put(&mut self, line: Line, at: u32) -> Result<(), AllocError>
        requires near { at ≤ 2048 }
        ensures pairs { IfOk result (λ _. self.new.pairs.items ≡ self.old.pairs.items ++ pairOf at (Some line)) }
        ensures bounds { IfOk result (λ _. self.new.bounds.items ≡ self.old.bounds.items ++ boundWords (nameOf (Some line))) }
    {
        match line {
            Line::Binds(x) => {
                self.pairs.push(x)?;
                self.pairs.push(at + 2)?;
                Ok(())
            }
            Line::Bounds(x) => put_bound(&mut self.bounds, x),
        }
    }
}

// The lines one after another.
fn all_proposed(alloc: Global, lines: Constraints) -> Result<Option<Proposal>, AllocError>
    requires few { sum_of sizeCon lines.trees.0 ≤ 2048 }
    ensures { IfOk result (ProposedBy lines.entry.trees.0) }
{
    let mut proposal = Proposal {
        pairs: Vec::new(alloc),
        bounds: Vec::new(alloc),
    };
    let mut at = 0;
    'lines: for c in lines {
        let Some(line) = line_of(c) else {
            return Ok(None);
        };
        proposal.put(line, at)?;
        at += c.len() as u32;
    }
    Ok(Some(proposal))
}

/// What a certificate that is a well formed set proposes; nothing where a line of it is neither a binding's nor a bound's.
pub fn proposed(
    alloc: Global,
    pool: &[u8],
    table: &[u32],
    certificate: &[u32],
) -> Result<Option<Proposal>, AllocError>
    requires given { setCall pool.now table.now certificate.now ≡ got tt }
    ensures { IfOk result (Proposed pool.now table.now certificate.now) }
{
    let lines = Constraints {
        words: certificate,
        at: 0,
        end: certificate.len() / 4,
    };
    all_proposed(alloc, lines)
}
