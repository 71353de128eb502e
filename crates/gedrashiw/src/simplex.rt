// A strand's annotation from its source reads. The calls are those of simplex_methylation.
ghost use Rattle.methylation.specs.Choices.{pattern_of, wrong_pattern};
ghost use Rattle.replies.specs.Choices.{yes};
ghost use Rattle.methylation.specs.Arrays.{evidence_arrays};
ghost use Rattle.simplex_methylation.specs.Simplex.{setting, AnnotatedAs};

use replies::Count;
use source_reads::SourceRead;

// Marks the consensus positions whose reference base is the pattern's (C for C to T, G for G to A), in any case, and counts there
// the reads that show it unconverted and converted, where they are aligned. With `count_all_positions` every base of every read
// is counted. Bases, and alignment marks (0 is none), are in the orientation in which the reads were sequenced, and so is
// `reference`: a byte for each consensus position, 0 where there is none. The mark of a base lies in `aligned` where the base lies
// in `bytes`; one past the end is none. A pattern is 1 for C to T, 2 for G to A; `count_all_positions` is 0 for no, any other number for
// yes. Refuses by 13, 7, 9, 10, 12.
#[unsafe(no_mangle)]
pub extern "C" fn gedrashiw_annotate_simplex_methylation(
    consensus_len: usize,
    reads: &[SourceRead],
    bytes: &[u8],
    reference: &[u8],
    pattern: u8,
    aligned: &[u8],
    count_all_positions: u8,
    marks_out: &mut [u8],
    unconverted_out: &mut [u32],
    converted_out: &mut [u32],
) -> Count
    ensures { AnnotatedAs (wrong_pattern pattern) (setting (pattern_of pattern) bytes.now reference.now aligned.now (yes count_all_positions)) reads.now consensus_len
        (evidence_arrays marks_out.old unconverted_out.old converted_out.old)
        (evidence_arrays marks_out.new unconverted_out.new converted_out.new)
        result }
{
    simplex_methylation::gedrashiw_annotate_simplex_methylation(
        consensus_len,
        reads,
        bytes,
        reference,
        pattern,
        aligned,
        count_all_positions,
        marks_out,
        unconverted_out,
        converted_out,
    )
}
