// The duplex record of strands given as bytes: what an encoded molecule and the entry points for C have in common. What is looked at,
// rows 13 and 7 and the numbers are molecule_strand's, the record duplex_record's, the reads molecule_errors's.
// Uses lists, refusals, settings, methylation, vanilla_caller, byte_numbers, molecule_evidence, molecule_strand, molecule_fields,
// molecule_reads, duplex_kind, duplex_outputs, duplex_record and molecule_errors.
#![tactic(auto)]

ghost use Rattle.std.specs.Prelude.{◌≡◌};
ghost use Rattle.settings.specs.Settings.{given_of as lab_of};
ghost use Rattle.methylation.specs.Outputs.{evidence_out, SameEvidence};
ghost use Rattle.duplex_outputs.specs.Lent.{record_out, SameOutputs};
ghost use Rattle.duplex_kind.specs.Kind.{given_of};
ghost use Rattle.molecule_strand.specs.Strand.{encoded_in, StrandRead};
ghost use Rattle.molecule_consensus.specs.Numbers.{numbers_in, zero_numbers, strand_read};
ghost use Rattle.molecule_consensus.specs.Molecule.{molecule_in, seen_of, zero_buffers, buffers_in, MoleculeAs};

use duplex_kind::DuplexConsensus;
use duplex_outputs::RecordOutputs;
use duplex_record::duplex_record;
use methylation::EvidenceOutputs;
use molecule_errors::{count_errors, read_list};
use molecule_evidence::EvidenceBuffers;
use molecule_strand::{EncodedStrand, byte_lengths, early_refusal, read_strand, strand_of_numbers};
use refusals::Refusal;
use settings::Settings;
use vanilla_caller::VanillaConsensusRead;

// A molecule whose numbers are bytes and whose reads are a run: each strand may be absent, and so may the list of reads.
#[derive(Clone, Copy)]
pub struct EncodedMolecule<'a> {
    pub a: Option<EncodedStrand<'a>>,
    pub b: Option<EncodedStrand<'a>>,
    pub reads: Option<&'a [u8]>,
}

// Arrays for a strand's numbers, each of the most that is looked at: no heap. They are read where they stand, lent to what writes them and
// then to what reads them. Depths and errors are no molecule_counts::CountBuffers: it is read by the Counts of the metrics, and none of its
// methods but `zeros` would be called here.
#[derive(Clone, Copy)]
struct StrandBuffers {
    depths: [u16; 1024],
    errors: [u16; 1024],
    evidence: EvidenceBuffers,
}

impl StrandBuffers {
    // As a call begins with them.
    fn zeros() -> StrandBuffers
        ensures { numbers_in result ≡ zero_numbers }
    {
        StrandBuffers {
            depths: [0; 1024],
            errors: [0; 1024],
            evidence: EvidenceBuffers::zeros(),
        }
    }

    // `read_strand` with these as its outputs.
    fn read(&mut self, s: Option<EncodedStrand>)
        ensures { StrandRead (encoded_in s.entry) (numbers_in self.old) (numbers_in self.new) }
    {
        let mut evidence = EvidenceOutputs {
            marks: &mut self.evidence.marks,
            unconverted: &mut self.evidence.unconverted,
            converted: &mut self.evidence.converted,
        };
        read_strand(s, &mut self.depths, &mut self.errors, &mut evidence);
    }

    // The strand that was read.
    fn strand<'a>(&'a self, s: Option<EncodedStrand<'a>>) -> Option<VanillaConsensusRead<'a>>
        ensures { given_of result ≡ strand_read (encoded_in s.entry) (numbers_in self.now) }
    {
        strand_of_numbers(s, &self.depths, &self.errors, self.evidence.slices())
    }
}

// The record of two strands, of one or of none, whose numbers are bytes and whose reads are a run, where there is a list. Evidence is
// not looked at without an annotation. Refuses by 13, 7, 8, 9, then by 12 for what is written. No struct of all outputs: who makes one
// that nests lent structs learns nothing of what their slices hold.
pub fn duplex_consensus_of_bytes(
    settings: Settings,
    m: EncodedMolecule,
    out: &mut RecordOutputs<'_>,
    a_out: &mut EvidenceOutputs<'_>,
    b_out: &mut EvidenceOutputs<'_>,
) -> Result<Option<DuplexConsensus>, Refusal>
    ensures same_references { SameOutputs out.old out.new × SameEvidence a_out.old a_out.new × SameEvidence b_out.old b_out.new }
    ensures made { MoleculeAs (lab_of settings) (seen_of (molecule_in m.entry))
        (record_out out.old (evidence_out a_out.old) (evidence_out b_out.old))
        (record_out out.new (evidence_out a_out.new) (evidence_out b_out.new))
        result }
{
    let list = read_list(m.reads)?;
    early_refusal(byte_lengths(m.a), byte_lengths(m.b))?;
    let mut a_numbers = StrandBuffers::zeros();
    a_numbers.read(m.a);
    let mut b_numbers = StrandBuffers::zeros();
    b_numbers.read(m.b);
    let a_read = a_numbers.strand(m.a);
    let b_read = b_numbers.strand(m.b);
    let made = duplex_record(settings, a_read, b_read, list, out, a_out, b_out);
    count_errors(made, m.reads, a_read, b_read, out.errors);
    made
}

// Arrays for a record, each of the most that is looked at: no heap. Lent, not answered by value: that copies them, and took a call of 150
// positions 60 in 100 longer.
#[derive(Clone, Copy)]
pub struct RecordBuffers {
    pub bases: [u8; 1024],
    pub quals: [u8; 1024],
    pub errors: [u16; 1024],
    pub a: EvidenceBuffers,
    pub b: EvidenceBuffers,
}

impl RecordBuffers {
    // As a call begins with them.
    pub fn zeros() -> RecordBuffers
        ensures { buffers_in result ≡ zero_buffers }
    {
        RecordBuffers {
            bases: [0; 1024],
            quals: [0; 1024],
            errors: [0; 1024],
            a: EvidenceBuffers::zeros(),
            b: EvidenceBuffers::zeros(),
        }
    }

    // `duplex_consensus_of_bytes` with these as its outputs.
    pub fn duplex_consensus_of_bytes(
        &mut self,
        settings: Settings,
        m: EncodedMolecule,
    ) -> Result<Option<DuplexConsensus>, Refusal>
        ensures { MoleculeAs (lab_of settings) (seen_of (molecule_in m.entry)) (buffers_in self.old) (buffers_in self.new) result }
    {
        let mut own = RecordOutputs {
            bases: &mut self.bases,
            quals: &mut self.quals,
            errors: &mut self.errors,
        };
        let mut a_evidence = EvidenceOutputs {
            marks: &mut self.a.marks,
            unconverted: &mut self.a.unconverted,
            converted: &mut self.a.converted,
        };
        let mut b_evidence = EvidenceOutputs {
            marks: &mut self.b.marks,
            unconverted: &mut self.b.unconverted,
            converted: &mut self.b.converted,
        };
        duplex_consensus_of_bytes(settings, m, &mut own, &mut a_evidence, &mut b_evidence)
    }
}
