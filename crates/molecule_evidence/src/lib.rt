// A strand's evidence as bytes, nine for each position: read from bytes, and written as bytes to a lent output, as many whole
// positions as there is room for. Uses lists, methylation and byte_numbers.
#![tactic(auto)]

ghost use Rattle.std.specs.Prelude.{◌≡◌, ◌+◌, ◌/◌, ◌≤◌, length, take};
ghost use Rattle.std.proofs.lemmas.List.Edits.{sets};
ghost use Rattle.lists.specs.Output.{put};
ghost use Rattle.methylation.specs.Arrays.{evidence_in};
ghost use Rattle.methylation.specs.Outputs.{SameEvidence};
ghost use Rattle.molecule_evidence.specs.Buffers.{zero_evidence, buffers_in};
ghost use Rattle.molecule_evidence.specs.Evidence.{position_bytes, evidence_bytes, kept_or_clear, kept_in, marked_bytes, positions_marked, marks_of, counts_of, unconverted_of, converted_of};

use byte_numbers::LittleEndian;
use lists::get_or;
use methylation::{Evidence, EvidenceOutputs, EvidenceSlices};

// The bytes of a position.
pub const POSITION_BYTES: usize = 9;

// Those of one without evidence.
const CLEAR: [u8; POSITION_BYTES] = [0; POSITION_BYTES];

// Not by `read_counts`, nor that by byte_numbers's `read`: a mark is one byte, of which no LittleEndian is made, and numbers that stand
// side by side need no place in a position.
fn read_marks(bytes: &[u8], marks: &mut [u8])
    ensures { marks.new ≡ put (take (length marks.old) (marks_of bytes.now)) marks.old }
{
    let n = marks.len().min(bytes.len() / POSITION_BYTES);
    // By index, here and below: of what is written through marks.iter_mut().zip(bytes.chunks_exact(9)) the proof learns no mark (tried).
    for i in 0..n {
        marks[i] = bytes[POSITION_BYTES * i];
    }
}

// The counts that begin at an offset of each position's bytes.
fn read_counts(bytes: &[u8], offset: usize, counts: &mut [u32])
    requires { offset + 4 ≤ 9 }
    ensures { counts.new ≡ put (take (length counts.old) (counts_of offset bytes.now)) counts.old }
{
    let n = counts.len().min(bytes.len() / POSITION_BYTES);
    for i in 0..n {
        let at = POSITION_BYTES * i + offset;
        counts[i] = u32::from_bytes(&bytes[at..at + 4]);
    }
}

// Reads marks, unconverted and converted counts, of each as many as there is room for.
pub fn read_evidence(bytes: &[u8], out: &mut EvidenceOutputs<'_>)
    ensures same_references { SameEvidence out.old out.new }
    ensures marks { out.new.marks.now ≡ put (take (length out.old.marks.now) (marks_of bytes.now)) out.old.marks.now }
    ensures unconverted { out.new.unconverted.now ≡ put (take (length out.old.unconverted.now) (unconverted_of bytes.now)) out.old.unconverted.now }
    ensures converted { out.new.converted.now ≡ put (take (length out.old.converted.now) (converted_of bytes.now)) out.old.converted.now }
{
    read_marks(bytes, out.marks);
    read_counts(bytes, 1, out.unconverted);
    read_counts(bytes, 5, out.converted);
}

// Arrays for a strand's evidence, each of the most that is looked at: no heap. Lent, not answered by value with what was read: that
// would copy them.
#[derive(Clone, Copy)]
pub struct EvidenceBuffers {
    pub marks: [u8; 1024],
    pub unconverted: [u32; 1024],
    pub converted: [u32; 1024],
}

impl EvidenceBuffers {
    // As a call begins with them.
    pub fn zeros() -> EvidenceBuffers
        ensures { buffers_in result ≡ zero_evidence }
    {
        EvidenceBuffers {
            marks: [0; 1024],
            unconverted: [0; 1024],
            converted: [0; 1024],
        }
    }

    // `read_evidence` with these as its outputs.
    pub fn read(&mut self, bytes: &[u8])
        ensures marks { self.new.marks ≡ put (take (length self.old.marks) (marks_of bytes.now)) self.old.marks }
        ensures unconverted { self.new.unconverted ≡ put (take (length self.old.unconverted) (unconverted_of bytes.now)) self.old.unconverted }
        ensures converted { self.new.converted ≡ put (take (length self.old.converted) (converted_of bytes.now)) self.old.converted }
    {
        let mut out = EvidenceOutputs {
            marks: &mut self.marks,
            unconverted: &mut self.unconverted,
            converted: &mut self.converted,
        };
        read_evidence(bytes, &mut out);
    }

    pub fn slices(&self) -> EvidenceSlices<'_>
        ensures { evidence_in result ≡ buffers_in self.now }
    {
        EvidenceSlices {
            marks: &self.marks,
            unconverted: &self.unconverted,
            converted: &self.converted,
        }
    }
}

// Writes a position's bytes from a place on.
fn store_position(evidence: Evidence, at: usize, out: &mut [u8])
    requires { at + 9 ≤ length out.old }
    ensures { out.new ≡ sets out.old at (position_bytes evidence.mark evidence.unconverted evidence.converted) }
{
    out[at] = evidence.mark;
    out[at + 1..at + 5].copy_from_slice(&evidence.unconverted.to_le_bytes());
    out[at + 5..at + 9].copy_from_slice(&evidence.converted.to_le_bytes());
}

// Writes the bytes of a position for each mark, as many as out has room for. A count that is missing is 0.
pub fn write_evidence(evidence: EvidenceSlices<'_>, out: &mut [u8])
    ensures { out.new ≡ put (evidence_bytes (take (length out.old / 9) evidence.entry.marks.now) evidence.entry.unconverted.now evidence.entry.converted.now) out.old }
{
    let n = (out.len() / POSITION_BYTES).min(evidence.marks.len());
    // By index: a count may be missing, and the counts stand at the mark's own place.
    for i in 0..n {
        let position = Evidence {
            mark: evidence.marks[i],
            unconverted: get_or(evidence.unconverted, i, 0),
            converted: get_or(evidence.converted, i, 0),
        };
        store_position(position, POSITION_BYTES * i, out);
    }
}

// The bytes of a position, or of one that is clear. What is chosen is where bytes are read from: of counts that were read the compiler
// makes a branch for each position, which cannot be foretold.
fn kept_or_clear(position: &[u8], kept: bool) -> &[u8]
    ensures { result.now ≡ kept_or_clear kept position.now }
{
    if kept { position } else { &CLEAR }
}

// The evidence of a position by its bytes: kept, or clear. An array for all positions' counts, between the bytes that are read and those
// that are written, takes as long as both.
#[tactic(auto, using(crate::proofs::Kept::kept_position))]
fn evidence_in(position: &[u8], kept: bool) -> Evidence
    requires { length position.now ≡ 9 }
    ensures { result ≡ kept_in kept position.now }
{
    let bytes = kept_or_clear(position, kept);
    Evidence {
        mark: u8::from(kept),
        unconverted: u32::from_bytes(&bytes[1..5]),
        converted: u32::from_bytes(&bytes[5..9]),
    }
}

// From bytes to bytes: writes the evidence of a position for each mark, its counts as they are given where the mark is not 0, clear where
// it is; as many positions as there are, and as there is room for. The marks that were given stand in the bytes too, and are not looked at.
pub fn write_marked(marks: &[u8], bytes: &[u8], out: &mut [u8])
    ensures { out.new ≡ put (marked_bytes (positions_marked marks.now bytes.now out.old) marks.now bytes.now) out.old }
{
    let n = (out.len() / POSITION_BYTES)
        .min(marks.len())
        .min(bytes.len() / POSITION_BYTES);
    // By index: a mark and nine bytes are read and nine written at the same place.
    for i in 0..n {
        let at = POSITION_BYTES * i;
        let evidence = evidence_in(&bytes[at..at + POSITION_BYTES], marks[i] != 0);
        store_position(evidence, at, out);
    }
}
