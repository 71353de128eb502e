// A duplex record as bytes: the lent outputs of bytes that it is written to, and row 12 for them. It owns their layout. Uses refusals,
// methylation, byte_numbers, molecule_evidence, duplex_outputs and duplex_kind.
#![tactic(auto)]

ghost use Rattle.std.specs.Prelude.{◌≡◌, length};
ghost use Rattle.refusals.specs.Outcome.{answer};
ghost use Rattle.c_record.specs.Lent.{bytes_out};
ghost use Rattle.c_record.specs.Outputs.{written_of, positions_in, outputs_refused};

use duplex_kind::DuplexConsensus;
use duplex_outputs::{RecordLengths, record_too_short};
use methylation::{ConversionPattern, EvidenceLengths};
use molecule_evidence::POSITION_BYTES;
use refusals::{Refusal, refuse};

// The outputs for a record as bytes: its own, and those for the evidence of its first strand and of its second. A function that is
// lent them leaves each slice where it is (specs/Lent.antt).
#[derive(Drop)]
pub struct ByteOutputs<'a> {
    pub bases: &'a mut [u8],
    pub quals: &'a mut [u8],
    pub errors: &'a mut [u8],
    pub a_evidence: &'a mut [u8],
    pub b_evidence: &'a mut [u8],
}

// How many positions are written, and the annotations of the first strand and of the second: without one no evidence is.
#[derive(Clone, Copy)]
pub struct Written {
    pub positions: usize,
    pub first: Option<ConversionPattern>,
    pub second: Option<ConversionPattern>,
}

// What is written of a record that was made of strands with these annotations. A strand alone is the first.
pub fn written_of(
    a: Option<ConversionPattern>,
    b: Option<ConversionPattern>,
    made: Option<DuplexConsensus>,
) -> Written
    ensures { result ≡ written_of a b made }
{
    let (positions, first, second) = match made {
        None => (0, None, None),
        Some(DuplexConsensus::Ab(n)) => (n, a, None),
        Some(DuplexConsensus::Ba(n)) => (n, b, None),
        Some(DuplexConsensus::Both(n)) => (n, a, b),
    };
    Written {
        positions,
        first,
        second,
    }
}

impl ByteOutputs<'_> {
    // How many positions they hold, of evidence where it is written.
    fn positions(&self, w: Written) -> RecordLengths
        ensures { result ≡ positions_in w (length self.now.bases.now) (length self.now.quals.now) (length self.now.errors.now) (length self.now.a_evidence.now) (length self.now.b_evidence.now) }
    {
        let a = EvidenceLengths::of(self.a_evidence.len() / POSITION_BYTES);
        let b = EvidenceLengths::of(self.b_evidence.len() / POSITION_BYTES);
        RecordLengths {
            bases: self.bases.len(),
            quals: self.quals.len(),
            errors: self.errors.len() / 2,
            a: w.first.and(Some(a)),
            b: w.second.and(Some(b)),
        }
    }

    // The row that refuses them for what is written: 12, or none.
    #[tactic(auto, using(crate::proofs::Outputs::refused_is))]
    pub fn refusal(&self, w: Written) -> Result<(), Refusal>
        ensures { result ≡ answer (outputs_refused w (bytes_out self.now)) tt }
    {
        let short = record_too_short(w.positions, self.positions(w));
        refuse(short, Refusal::OutputTooShort)
    }
}
