// The combination, the reasons, the metrics and the methylation tags over arrays of bytes, low byte first. The calls are those of c_interface, c_reason and c_tags.
ghost use Rattle.std.specs.Prelude.{◌||◌, ◌≡◌};
ghost use Rattle.replies.specs.Choices.{yes};
ghost use Rattle.molecule_strand.specs.Strand.{wrong_encoded_pattern};
ghost use Rattle.c_record.specs.Outputs.{record_bytes};
ghost use Rattle.c_interface.specs.Entry.{told, strand_given, previewed, ConsensusEntry};
ghost use Rattle.duplex_metrics.specs.Metrics.{input};
ghost use Rattle.c_metrics.specs.Bytes.{seen, MetricsEntry};
ghost use Rattle.rust_reason.specs.Reply.{reason_for};
ghost use Rattle.c_reason.specs.Reason.{bytes_reason};
ghost use Rattle.duplex_texts.specs.Texts.{text_arrays};
ghost use Rattle.duplex_tags.specs.Tags.{count_arrays};
ghost use Rattle.rust_methylation.specs.Entries.{duplex_arrays};
ghost use Rattle.c_tags.specs.Tags.{annotation_bytes, TagsEntry};

use c_interface::ToldEncodedMolecule;
use duplex_reply::DuplexRecord;
use rust_methylation::DuplexTagsReply;
use rust_reason::Reason;

// The duplex record of two strands, document 01's combination, as bytes. Of a strand that is not there nothing is looked at, and its
// pattern and evidence only with an annotation; reads are a run of whole fields 30, looked at where they are listed. Refuses by 13, 14, 7,
// 19, 8, 9, then by 12 for what is written.
#[unsafe(no_mangle)]
pub extern "C" fn gedrashiw_duplex_consensus(
    molecule: ToldEncodedMolecule,
    a_bases: &[u8],
    a_quals: &[u8],
    a_depths: &[u8],
    a_errors: &[u8],
    a_evidence: &[u8],
    b_bases: &[u8],
    b_quals: &[u8],
    b_depths: &[u8],
    b_errors: &[u8],
    b_evidence: &[u8],
    reads: &[u8],
    bases_out: &mut [u8],
    quals_out: &mut [u8],
    errors_out: &mut [u8],
    a_evidence_out: &mut [u8],
    b_evidence_out: &mut [u8],
) -> DuplexRecord
    ensures { ConsensusEntry molecule
        (strand_given molecule.a.present molecule.a.annotated molecule.a.pattern a_bases.now a_quals.now a_depths.now a_errors.now a_evidence.now)
        (strand_given molecule.b.present molecule.b.annotated molecule.b.pattern b_bases.now b_quals.now b_depths.now b_errors.now b_evidence.now)
        reads.now
        (record_bytes bases_out.old quals_out.old errors_out.old a_evidence_out.old b_evidence_out.old)
        (record_bytes bases_out.new quals_out.new errors_out.new a_evidence_out.new b_evidence_out.new)
        result }
{
    c_interface::gedrashiw_duplex_consensus(
        molecule,
        a_bases,
        a_quals,
        a_depths,
        a_errors,
        a_evidence,
        b_bases,
        b_quals,
        b_depths,
        b_errors,
        b_evidence,
        reads,
        bases_out,
        quals_out,
        errors_out,
        a_evidence_out,
        b_evidence_out,
    )
}

// The same for a preview: of no more than 256 positions, whatever the lab's limit, and by memory for no more.
#[unsafe(no_mangle)]
pub extern "C" fn gedrashiw_preview_consensus(
    molecule: ToldEncodedMolecule,
    a_bases: &[u8],
    a_quals: &[u8],
    a_depths: &[u8],
    a_errors: &[u8],
    a_evidence: &[u8],
    b_bases: &[u8],
    b_quals: &[u8],
    b_depths: &[u8],
    b_errors: &[u8],
    b_evidence: &[u8],
    reads: &[u8],
    bases_out: &mut [u8],
    quals_out: &mut [u8],
    errors_out: &mut [u8],
    a_evidence_out: &mut [u8],
    b_evidence_out: &mut [u8],
) -> DuplexRecord
    ensures { ConsensusEntry (previewed molecule)
        (strand_given molecule.a.present molecule.a.annotated molecule.a.pattern a_bases.now a_quals.now a_depths.now a_errors.now a_evidence.now)
        (strand_given molecule.b.present molecule.b.annotated molecule.b.pattern b_bases.now b_quals.now b_depths.now b_errors.now b_evidence.now)
        reads.now
        (record_bytes bases_out.old quals_out.old errors_out.old a_evidence_out.old b_evidence_out.old)
        (record_bytes bases_out.new quals_out.new errors_out.new a_evidence_out.new b_evidence_out.new)
        result }
{
    c_interface::gedrashiw_preview_consensus(
        molecule,
        a_bases,
        a_quals,
        a_depths,
        a_errors,
        a_evidence,
        b_bases,
        b_quals,
        b_depths,
        b_errors,
        b_evidence,
        reads,
        bases_out,
        quals_out,
        errors_out,
        a_evidence_out,
        b_evidence_out,
    )
}

// The metrics of a record, document 01's "Metrics", as 40 bytes: aD, aM, aE, bD, bM, bE, cD, cM, cE, nc. Depths and errors are
// 16-bit numbers, those written are 32-bit numbers, and a rate is its bits. second is 0 where there is no second strand.
// Answers 0, or the number of the refusal: 13, 7, 8, 12.
#[unsafe(no_mangle)]
pub extern "C" fn gedrashiw_metrics(
    a_depths: &[u8],
    a_errors: &[u8],
    second: u8,
    b_depths: &[u8],
    b_errors: &[u8],
    bases: &[u8],
    errors: &[u8],
    out: &mut [u8],
) -> u8
    ensures { MetricsEntry (seen (input a_depths.now a_errors.now (yes second) b_depths.now b_errors.now bases.now errors.now)) out.old out.new result }
{
    c_interface::gedrashiw_metrics(
        a_depths, a_errors, second, b_depths, b_errors, bases, errors, out,
    )
}

// Why a position of the record that two strands make shows N: `no_call_reason` over bytes. Depths and errors are two bytes a position,
// evidence nine (mark, unconverted, converted). What is there or annotated is 0 for no, any other number for yes; a pattern is 0 for C to
// T, 1 for G to A. Of a strand that is not there nothing is looked at, and its pattern and evidence only with an annotation. Refuses by
// 13, 7, 8, as `gedrashiw_duplex_consensus` does without reads and by settings that refuse nothing, whether or not there is a record.
#[unsafe(no_mangle)]
pub extern "C" fn gedrashiw_no_call_reason(
    a_present: u8,
    a_annotated: u8,
    a_pattern: u8,
    a_bases: &[u8],
    a_quals: &[u8],
    a_depths: &[u8],
    a_errors: &[u8],
    a_evidence: &[u8],
    b_present: u8,
    b_annotated: u8,
    b_pattern: u8,
    b_bases: &[u8],
    b_quals: &[u8],
    b_depths: &[u8],
    b_errors: &[u8],
    b_evidence: &[u8],
    position: usize,
) -> Reason
    ensures { result ≡ reason_for (bytes_reason
        (wrong_encoded_pattern (told a_present a_annotated) a_pattern || wrong_encoded_pattern (told b_present b_annotated) b_pattern)
        (strand_given a_present a_annotated a_pattern a_bases.now a_quals.now a_depths.now a_errors.now a_evidence.now)
        (strand_given b_present b_annotated b_pattern b_bases.now b_quals.now b_depths.now b_errors.now b_evidence.now)
        position) }
{
    c_reason::gedrashiw_no_call_reason(
        a_present,
        a_annotated,
        a_pattern,
        a_bases,
        a_quals,
        a_depths,
        a_errors,
        a_evidence,
        b_present,
        b_annotated,
        b_pattern,
        b_bases,
        b_quals,
        b_depths,
        b_errors,
        b_evidence,
        position,
    )
}

// A record's sequence, its MM and ML, each strand's MM, and the counts as tags hold them, from its bases and the annotations of its
// strands, in strand order: `duplex_methylation_tags` over bytes. Evidence is nine bytes a position (mark, unconverted, converted),
// counts two. What is annotated is 0 for no, any other number for yes; a pattern is 0 for C to T, 1 for G to A; a mode is 0 for
// Disabled, 1 for EM-Seq, 2 for TAPs. Of an absent annotation neither pattern nor evidence is looked at, and nothing goes to its
// outputs. Refuses by 13, 7, 8, 12.
#[unsafe(no_mangle)]
pub extern "C" fn gedrashiw_methylation_tags(
    bases: &[u8],
    a_annotated: u8,
    a_pattern: u8,
    a_evidence: &[u8],
    b_annotated: u8,
    b_pattern: u8,
    b_evidence: &[u8],
    mode: u8,
    seq_out: &mut [u8],
    a_mm_out: &mut [u8],
    b_mm_out: &mut [u8],
    mm_out: &mut [u8],
    ml_out: &mut [u8],
    a_unconverted_out: &mut [u8],
    a_converted_out: &mut [u8],
    b_unconverted_out: &mut [u8],
    b_converted_out: &mut [u8],
    unconverted_out: &mut [u8],
    converted_out: &mut [u8],
) -> DuplexTagsReply
    ensures { TagsEntry mode bases.now
        (annotation_bytes a_annotated a_pattern a_evidence.now)
        (annotation_bytes b_annotated b_pattern b_evidence.now)
        (duplex_arrays
        (text_arrays seq_out.old a_mm_out.old b_mm_out.old mm_out.old ml_out.old)
        (count_arrays a_unconverted_out.old a_converted_out.old b_unconverted_out.old b_converted_out.old unconverted_out.old converted_out.old))
        (duplex_arrays
        (text_arrays seq_out.new a_mm_out.new b_mm_out.new mm_out.new ml_out.new)
        (count_arrays a_unconverted_out.new a_converted_out.new b_unconverted_out.new b_converted_out.new unconverted_out.new converted_out.new))
        result }
{
    c_tags::gedrashiw_methylation_tags(
        bases,
        a_annotated,
        a_pattern,
        a_evidence,
        b_annotated,
        b_pattern,
        b_evidence,
        mode,
        seq_out,
        a_mm_out,
        b_mm_out,
        mm_out,
        ml_out,
        a_unconverted_out,
        a_converted_out,
        b_unconverted_out,
        b_converted_out,
        unconverted_out,
        converted_out,
    )
}
