// Entry points for C programs: numbers and byte slices, and answers as numbers. An array of wider numbers is passed as its bytes,
// low byte first. This crate owns the numbers for what is there; the calls are c_metrics's and c_consensus's. Uses lists, refusals, settings,
// replies, duplex_kind, duplex_metrics, duplex_reply, molecule_strand, molecule_errors, molecule_consensus, c_record, c_metrics and
// c_consensus.
#![tactic(auto)]

ghost use Rattle.std.specs.Prelude.{◌≡◌};
ghost use Rattle.replies.specs.Choices.{yes};
ghost use Rattle.duplex_metrics.specs.Metrics.{input};
ghost use Rattle.c_record.specs.Outputs.{record_bytes};
ghost use Rattle.c_metrics.specs.Bytes.{seen, MetricsEntry};
ghost use Rattle.c_interface.specs.Entry.{strand_given, strand_told, told_by, molecule_told, molecule_by, previewed, ConsensusEntry};

use c_consensus::{duplex_consensus_bytes, preview_consensus_bytes};
use c_metrics::metrics_of_bytes;
use c_record::ByteOutputs;
use duplex_metrics::{Counts, MetricsInput};
use duplex_reply::DuplexRecord;
use molecule_consensus::EncodedMolecule;
use molecule_strand::{EncodedStrand, encoded_annotation_in};
use refusals::Refusal;
use settings::GivenSettings;

// What C tells of a strand beside its arrays. Present or annotated: 0 is no, any other number yes; a pattern is 0 for C to T, 1 for G to A.
#[repr(C)]
#[derive(Clone, Copy)]
pub struct ToldEncodedStrand {
    pub present: u8,
    pub annotated: u8,
    pub pattern: u8,
}

// And of a molecule, whose source reads may be listed: 0 is no, any other number yes.
#[repr(C)]
#[derive(Clone, Copy)]
pub struct ToldEncodedMolecule {
    pub a: ToldEncodedStrand,
    pub b: ToldEncodedStrand,
    pub listed: u8,
    pub settings: GivenSettings,
}

// A strand as C gives it, as far as it is looked at: nothing of one that is not there, and its pattern and evidence only with an
// annotation. Refuses by 13 a pattern that is looked at and stands for nothing. An annotation that s has is not looked at: C's flag and
// byte tell of it. Flags beside values are the C interface's, here and in molecule_strand's functions of them.
// By its three numbers, not by a ToldEncodedStrand: an entry that takes no settings has them so.
#[tactic(auto, unfolding(lists::specs::Part::only_if))]
pub fn strand_told<'a>(
    present: u8,
    annotated: u8,
    pattern: u8,
    s: EncodedStrand<'a>,
    evidence: &'a [u8],
) -> Result<Option<EncodedStrand<'a>>, Refusal>
    ensures { told_by result ≡ strand_told present annotated pattern s.entry.bases.now s.entry.quals.now s.entry.depths.now s.entry.errors.now evidence.now }
{
    if present == 0 {
        return Ok(None);
    }
    let annotation = encoded_annotation_in(annotated != 0, pattern)?;
    Ok(Some(s.annotated(annotation, evidence)))
}

// A molecule as C gives it, whose strands come with their evidence apart: each as far as it is looked at, and reads where they are listed.
// Refuses by 13 as the strands do.
// Inlined for speed: else what it answers is copied.
#[inline(always)]
fn told_molecule<'a>(
    told: ToldEncodedMolecule,
    a: EncodedStrand<'a>,
    a_evidence: &'a [u8],
    b: EncodedStrand<'a>,
    b_evidence: &'a [u8],
    reads: &'a [u8],
) -> Result<EncodedMolecule<'a>, Refusal>
    ensures { molecule_by result ≡ molecule_told told
        (strand_given told.a.present told.a.annotated told.a.pattern a.entry.bases.now a.entry.quals.now a.entry.depths.now a.entry.errors.now a_evidence.now)
        (strand_given told.b.present told.b.annotated told.b.pattern b.entry.bases.now b.entry.quals.now b.entry.depths.now b.entry.errors.now b_evidence.now)
        reads.now }
{
    let s = told.a;
    let a = strand_told(s.present, s.annotated, s.pattern, a, a_evidence)?;
    let s = told.b;
    let b = strand_told(s.present, s.annotated, s.pattern, b, b_evidence)?;
    let reads = (told.listed != 0).then_some(reads);
    Ok(EncodedMolecule { a, b, reads })
}

// The duplex record of two strands, document 01's combination, as bytes. Of a strand that is not there nothing is looked at, and its
// pattern and evidence only with an annotation; reads are a run of whole fields 30, looked at where they are listed. Refuses by 13, 14, 7,
// 19, 8, 9, then by 12 for what is written.
#[unsafe(no_mangle)]
pub extern "C" fn gedrashiw_duplex_consensus(
    molecule: ToldEncodedMolecule,
    a_bases: &[u8],
    a_quals: &[u8],
    a_depths: &[u8],
    a_errors: &[u8],
    a_evidence: &[u8],
    b_bases: &[u8],
    b_quals: &[u8],
    b_depths: &[u8],
    b_errors: &[u8],
    b_evidence: &[u8],
    reads: &[u8],
    bases_out: &mut [u8],
    quals_out: &mut [u8],
    errors_out: &mut [u8],
    a_evidence_out: &mut [u8],
    b_evidence_out: &mut [u8],
) -> DuplexRecord
    ensures { ConsensusEntry molecule
        (strand_given molecule.a.present molecule.a.annotated molecule.a.pattern a_bases.now a_quals.now a_depths.now a_errors.now a_evidence.now)
        (strand_given molecule.b.present molecule.b.annotated molecule.b.pattern b_bases.now b_quals.now b_depths.now b_errors.now b_evidence.now)
        reads.now
        (record_bytes bases_out.old quals_out.old errors_out.old a_evidence_out.old b_evidence_out.old)
        (record_bytes bases_out.new quals_out.new errors_out.new a_evidence_out.new b_evidence_out.new)
        result }
{
    let a = EncodedStrand::new(a_bases, a_quals, a_depths, a_errors);
    let b = EncodedStrand::new(b_bases, b_quals, b_depths, b_errors);
    let mut out = ByteOutputs {
        bases: bases_out,
        quals: quals_out,
        errors: errors_out,
        a_evidence: a_evidence_out,
        b_evidence: b_evidence_out,
    };
    match told_molecule(molecule, a, a_evidence, b, b_evidence, reads) {
        Ok(m) => DuplexRecord::from(duplex_consensus_bytes(molecule.settings, m, &mut out)),
        Err(refusal) => DuplexRecord::from(refusal),
    }
}

// The same for a preview: of no more than 256 positions, whatever the lab's limit, and by memory for no more.
#[unsafe(no_mangle)]
pub extern "C" fn gedrashiw_preview_consensus(
    molecule: ToldEncodedMolecule,
    a_bases: &[u8],
    a_quals: &[u8],
    a_depths: &[u8],
    a_errors: &[u8],
    a_evidence: &[u8],
    b_bases: &[u8],
    b_quals: &[u8],
    b_depths: &[u8],
    b_errors: &[u8],
    b_evidence: &[u8],
    reads: &[u8],
    bases_out: &mut [u8],
    quals_out: &mut [u8],
    errors_out: &mut [u8],
    a_evidence_out: &mut [u8],
    b_evidence_out: &mut [u8],
) -> DuplexRecord
    ensures { ConsensusEntry (previewed molecule)
        (strand_given molecule.a.present molecule.a.annotated molecule.a.pattern a_bases.now a_quals.now a_depths.now a_errors.now a_evidence.now)
        (strand_given molecule.b.present molecule.b.annotated molecule.b.pattern b_bases.now b_quals.now b_depths.now b_errors.now b_evidence.now)
        reads.now
        (record_bytes bases_out.old quals_out.old errors_out.old a_evidence_out.old b_evidence_out.old)
        (record_bytes bases_out.new quals_out.new errors_out.new a_evidence_out.new b_evidence_out.new)
        result }
{
    let a = EncodedStrand::new(a_bases, a_quals, a_depths, a_errors);
    let b = EncodedStrand::new(b_bases, b_quals, b_depths, b_errors);
    let mut out = ByteOutputs {
        bases: bases_out,
        quals: quals_out,
        errors: errors_out,
        a_evidence: a_evidence_out,
        b_evidence: b_evidence_out,
    };
    match told_molecule(molecule, a, a_evidence, b, b_evidence, reads) {
        Ok(m) => DuplexRecord::from(preview_consensus_bytes(molecule.settings, m, &mut out)),
        Err(refusal) => DuplexRecord::from(refusal),
    }
}

// The metrics of a record, document 01's "Metrics", as 40 bytes: aD, aM, aE, bD, bM, bE, cD, cM, cE, nc. Depths and errors are
// 16-bit numbers, those written are 32-bit numbers, and a rate is its bits. second is 0 where there is no second strand.
// Answers 0, or the number of the refusal: 13, 7, 8, 12.
#[unsafe(no_mangle)]
pub extern "C" fn gedrashiw_metrics(
    a_depths: &[u8],
    a_errors: &[u8],
    second: u8,
    b_depths: &[u8],
    b_errors: &[u8],
    bases: &[u8],
    errors: &[u8],
    out: &mut [u8],
) -> u8
    ensures { MetricsEntry (seen (input a_depths.now a_errors.now (yes second) b_depths.now b_errors.now bases.now errors.now)) out.old out.new result }
{
    let a = Counts {
        depths: a_depths,
        errors: a_errors,
    };
    let b = Counts {
        depths: b_depths,
        errors: b_errors,
    };
    let b = (second != 0).then_some(b);
    let x = MetricsInput {
        a,
        b,
        bases,
        errors,
    };
    // The numbers are those that C sees.
    metrics_of_bytes(x, out).map_or_else(Refusal::number, |()| 0)
}
