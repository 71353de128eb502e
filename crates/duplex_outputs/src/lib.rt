// The outputs that a duplex record is written to: its bases, qualities and errors, and each strand's evidence; and when they are
// too short. Uses lists, refusals and methylation.
#![tactic(auto)]

ghost use Rattle.std.specs.Prelude.{◌≡◌};
ghost use Rattle.duplex_outputs.specs.Lent.{lengths_beside};
ghost use Rattle.duplex_outputs.specs.Outputs.{record_too_short};

use methylation::{EvidenceLengths, evidence_too_short};

// A record's own outputs. A function that is lent them leaves each slice where it is (specs/Lent.antt).
// Those for the evidence of its strands stand beside this: of a struct that holds structs of lent slices, the check does not tell
// who made it what the slices hold after a call.
#[derive(Drop)]
pub struct RecordOutputs<'a> {
    pub bases: &'a mut [u8],
    pub quals: &'a mut [u8],
    pub errors: &'a mut [u16],
}

// How many places each output has: the record's own, and those of the evidence of A and of B, which each caller has as two; each where
// its strand is annotated: without an annotation they are not looked at.
#[derive(Clone, Copy)]
pub struct RecordLengths {
    pub bases: usize,
    pub quals: usize,
    pub errors: usize,
    pub a: Option<EvidenceLengths>,
    pub b: Option<EvidenceLengths>,
}

// Row 12's condition for n positions.
pub fn record_too_short(n: usize, out: RecordLengths) -> bool
    ensures { result ≡ record_too_short n out }
{
    let own = (out.bases < n) | ((out.quals < n) | (out.errors < n));
    let a = out.a.is_some_and(|e| evidence_too_short(n, e));
    let b = out.b.is_some_and(|e| evidence_too_short(n, e));
    own | (a | b)
}

impl RecordOutputs<'_> {
    // Beside outputs for evidence that are so long, where they are looked at.
    pub fn lengths(&self, a: Option<EvidenceLengths>, b: Option<EvidenceLengths>) -> RecordLengths
        ensures { result ≡ lengths_beside self.now a b }
    {
        RecordLengths {
            bases: self.bases.len(),
            quals: self.quals.len(),
            errors: self.errors.len(),
            a,
            b,
        }
    }
}
