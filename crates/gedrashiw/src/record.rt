// The duplex record of two strands and their source reads. The calls are those of duplex_consensus.
ghost use Rattle.vanilla_caller.specs.Strand.{arrays};
ghost use Rattle.duplex_outputs.specs.Outputs.{record_of};
ghost use Rattle.duplex_consensus.specs.Consensus.{EntryAs};

use duplex_reply::{DuplexRecord, ToldMolecule};
use source_reads::SourceRead;

// The record of two strands, of one or of none, with the source reads where they are listed. One strand alone goes to the first
// strand's outputs. Refuses by 13, then 14, 7, 19, 8, 9, 10 whatever the record, then by 12 for what is written.
#[unsafe(no_mangle)]
pub extern "C" fn gedrashiw_duplex_consensus_typed(
    molecule: ToldMolecule,
    a_bases: &[u8],
    a_quals: &[u8],
    a_depths: &[u16],
    a_errors: &[u16],
    a_marks: &[u8],
    a_unconverted: &[u32],
    a_converted: &[u32],
    b_bases: &[u8],
    b_quals: &[u8],
    b_depths: &[u16],
    b_errors: &[u16],
    b_marks: &[u8],
    b_unconverted: &[u32],
    b_converted: &[u32],
    reads: &[SourceRead],
    bytes: &[u8],
    bases_out: &mut [u8],
    quals_out: &mut [u8],
    errors_out: &mut [u16],
    a_marks_out: &mut [u8],
    a_unconverted_out: &mut [u32],
    a_converted_out: &mut [u32],
    b_marks_out: &mut [u8],
    b_unconverted_out: &mut [u32],
    b_converted_out: &mut [u32],
) -> DuplexRecord
    ensures { EntryAs molecule
        (arrays a_bases.now a_quals.now a_depths.now a_errors.now a_marks.now a_unconverted.now a_converted.now)
        (arrays b_bases.now b_quals.now b_depths.now b_errors.now b_marks.now b_unconverted.now b_converted.now)
        reads.now bytes.now
        (record_of bases_out.old quals_out.old errors_out.old a_marks_out.old a_unconverted_out.old a_converted_out.old b_marks_out.old b_unconverted_out.old b_converted_out.old)
        (record_of bases_out.new quals_out.new errors_out.new a_marks_out.new a_unconverted_out.new a_converted_out.new b_marks_out.new b_unconverted_out.new b_converted_out.new)
        result }
{
    duplex_consensus::gedrashiw_duplex_consensus_typed(
        molecule,
        a_bases,
        a_quals,
        a_depths,
        a_errors,
        a_marks,
        a_unconverted,
        a_converted,
        b_bases,
        b_quals,
        b_depths,
        b_errors,
        b_marks,
        b_unconverted,
        b_converted,
        reads,
        bytes,
        bases_out,
        quals_out,
        errors_out,
        a_marks_out,
        a_unconverted_out,
        a_converted_out,
        b_marks_out,
        b_unconverted_out,
        b_converted_out,
    )
}
