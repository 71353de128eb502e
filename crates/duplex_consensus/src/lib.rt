// The duplex record with its source reads, from duplex_caller.rs (duplex_consensus), as an entry point over numbers: the record, and
// where there is a list the errors that are counted of its reads. Uses refusals, methylation, settings, vanilla_caller,
// duplex_molecule, duplex_outputs, duplex_kind, duplex_reply, duplex_record and source_reads, and definitions of caller and replies.
#![tactic(auto)]

ghost use Rattle.std.specs.Prelude.{◌≡◌};
ghost use Rattle.vanilla_caller.specs.Strand.{arrays};
ghost use Rattle.duplex_outputs.specs.Outputs.{record_of};
ghost use Rattle.duplex_kind.specs.Kind.{given_of};
ghost use Rattle.source_reads.specs.Arrays.{bases_in, combined_in};
ghost use Rattle.duplex_consensus.specs.Consensus.{bases_of, combined_of, counted_positions, given_in, EntryAs};

use duplex_kind::{DuplexConsensus, GivenReads, limit_refusal, strand_lengths};
use duplex_molecule::ct_input;
use duplex_outputs::RecordOutputs;
use duplex_record::duplex_record;
use duplex_reply::{DuplexRecord, ToldMolecule, strand_in};
use methylation::{EvidenceOutputs, EvidenceSlices};
use refusals::Refusal;
use source_reads::{
    CombinedBases, SourceRead, SourceReads, StrandBases, count_read_errors, list_leaves,
};
use vanilla_caller::VanillaConsensusRead;

// How many positions of a record have their errors counted: all of a record of two strands with a list. A refusal of any type that
// is Copy will do. Of a list only whether there is one counts here.
pub fn counted_positions<E: Copy>(made: Result<Option<DuplexConsensus>, E>, listed: bool) -> usize
    ensures { result ≡ counted_positions listed made }
{
    match made {
        Ok(Some(DuplexConsensus::Both(n))) if listed => n,
        _ => 0,
    }
}

// Not one with line_strands' `count_bytes`, of other fields of another type: all that both share is what `map_or` is.
fn bases_in<'a>(s: Option<VanillaConsensusRead<'a>>) -> StrandBases<'a>
    ensures { bases_in result ≡ bases_of (given_of s.entry).arrays }
{
    let none = StrandBases {
        bases: &[],
        quals: &[],
    };
    s.map_or(
        none,
        |s| StrandBases {
            bases: s.bases,
            quals: s.quals,
        },
    )
}

// Two strands, of which errors are counted at so many positions. Only bases, qualities and annotations are looked at, so that their other
// arrays may be any. A and B are the two operands, as the caller has them.
pub fn combined_bases<'a>(
    a: Option<VanillaConsensusRead<'a>>,
    b: Option<VanillaConsensusRead<'a>>,
    positions: usize,
) -> CombinedBases<'a>
    ensures { combined_in result ≡ combined_of (given_of a.entry) (given_of b.entry) positions }
{
    let ct = ct_input(
        a.and_then(|s| s.annotation()),
        b.and_then(|s| s.annotation()),
    );
    CombinedBases {
        ct,
        positions,
        a: bases_in(a),
        b: bases_in(b),
    }
}

// What is given of a list, where there is one.
fn given_list(list: Option<SourceReads>) -> Option<GivenReads>
    ensures { result ≡ given_in list.entry }
{
    list.map(|list| GivenReads {
        count: list.reads.len(),
        leaving: list_leaves(list.reads, list.bytes.len()),
    })
}

// The record of two strands, of one or of none, with the source reads where they are listed. One strand alone goes to the first
// strand's outputs. Refuses by 13, then 14, 7, 19, 8, 9, 10 whatever the record, then by 12 for what is written.
#[unsafe(no_mangle)]
pub extern "C" fn gedrashiw_duplex_consensus_typed(
    molecule: ToldMolecule,
    a_bases: &[u8],
    a_quals: &[u8],
    a_depths: &[u16],
    a_errors: &[u16],
    a_marks: &[u8],
    a_unconverted: &[u32],
    a_converted: &[u32],
    b_bases: &[u8],
    b_quals: &[u8],
    b_depths: &[u16],
    b_errors: &[u16],
    b_marks: &[u8],
    b_unconverted: &[u32],
    b_converted: &[u32],
    reads: &[SourceRead],
    bytes: &[u8],
    bases_out: &mut [u8],
    quals_out: &mut [u8],
    errors_out: &mut [u16],
    a_marks_out: &mut [u8],
    a_unconverted_out: &mut [u32],
    a_converted_out: &mut [u32],
    b_marks_out: &mut [u8],
    b_unconverted_out: &mut [u32],
    b_converted_out: &mut [u32],
) -> DuplexRecord
    ensures { EntryAs molecule
        (arrays a_bases.now a_quals.now a_depths.now a_errors.now a_marks.now a_unconverted.now a_converted.now)
        (arrays b_bases.now b_quals.now b_depths.now b_errors.now b_marks.now b_unconverted.now b_converted.now)
        reads.now bytes.now
        (record_of bases_out.old quals_out.old errors_out.old a_marks_out.old a_unconverted_out.old a_converted_out.old b_marks_out.old b_unconverted_out.old b_converted_out.old)
        (record_of bases_out.new quals_out.new errors_out.new a_marks_out.new a_unconverted_out.new a_converted_out.new b_marks_out.new b_unconverted_out.new b_converted_out.new)
        result }
{
    let a = VanillaConsensusRead::new(a_bases, a_quals, a_depths, a_errors);
    let a_evidence = EvidenceSlices::new(a_marks, a_unconverted, a_converted);
    // No `?`, here and below: no plainer, a function between would have this contract once more, over a Result. A closure was tried in
    // rust_padded.
    let a = match strand_in(molecule.a.present, molecule.a.annotation, a, a_evidence) {
        Ok(a) => a,
        Err(refusal) => return DuplexRecord::from(refusal),
    };
    let b = VanillaConsensusRead::new(b_bases, b_quals, b_depths, b_errors);
    let b_evidence = EvidenceSlices::new(b_marks, b_unconverted, b_converted);
    let b = match strand_in(molecule.b.present, molecule.b.annotation, b, b_evidence) {
        Ok(b) => b,
        Err(refusal) => return DuplexRecord::from(refusal),
    };
    let settings = match molecule.settings.tested() {
        Ok(settings) => settings,
        Err(refusal) => return DuplexRecord::from(refusal),
    };
    if let Err(refusal) = limit_refusal(settings.limit, strand_lengths(a), strand_lengths(b)) {
        return DuplexRecord::from(refusal);
    }
    let reads = SourceReads { reads, bytes };
    let list = given_list((molecule.listed != 0).then_some(reads));
    let mut out = RecordOutputs {
        bases: bases_out,
        quals: quals_out,
        errors: errors_out,
    };
    let mut a_out = EvidenceOutputs {
        marks: a_marks_out,
        unconverted: a_unconverted_out,
        converted: a_converted_out,
    };
    let mut b_out = EvidenceOutputs {
        marks: b_marks_out,
        unconverted: b_unconverted_out,
        converted: b_converted_out,
    };
    let made = duplex_record(settings, a, b, list, &mut out, &mut a_out, &mut b_out);
    let s = combined_bases(a, b, counted_positions(made, list.is_some()));
    count_read_errors(reads, s, out.errors);
    DuplexRecord::from(made)
}
