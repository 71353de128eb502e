// Entry points over numbers as they are: a strand's depths, and the evidence of its annotation. Uses refusals, methylation, replies,
// vanilla_caller and methylation_evidence.
#![tactic(auto)]

ghost use Rattle.std.specs.Prelude.{◌≡◌, length};
ghost use Rattle.refusals.specs.Outcome.{answer, after};
ghost use Rattle.replies.specs.Replies.{PassedOn, count_reply, number_reply};
ghost use Rattle.methylation.specs.Arrays.{evidence_arrays};
ghost use Rattle.vanilla_caller.specs.Depth.{max_depth, min_depth};
ghost use Rattle.methylation_evidence.specs.Counts.{tag_counts, counts_refused, summed_counts, summed_refused};
ghost use Rattle.methylation_evidence.specs.Gate.{GatedAs};
ghost use Rattle.methylation_evidence.specs.Truncate.{TruncatedAs};

use methylation::{EvidenceOutputs, EvidenceSlices};
use methylation_evidence::{
    converted_counts, gate_to_informative, summed_counts, truncate, unconverted_counts,
};
use replies::{Count, Number};
use vanilla_caller::{max_depth, min_depth};

// The largest depth of a strand. Refuses by 7.
#[unsafe(no_mangle)]
pub extern "C" fn gedrashiw_max_depth(depths: &[u16]) -> Number
    ensures { result ≡ number_reply (max_depth depths.now) }
{
    Number::from(max_depth(depths).map(u32::from))
}

// The smallest depth of a strand. Refuses by 7.
#[unsafe(no_mangle)]
pub extern "C" fn gedrashiw_min_depth(depths: &[u16]) -> Number
    ensures { result ≡ number_reply (min_depth depths.now) }
{
    Number::from(min_depth(depths).map(u32::from))
}

// Clears the evidence where it is not informative. Refuses by 7, 8.
#[unsafe(no_mangle)]
pub extern "C" fn gedrashiw_gate_to_informative(
    marks: &mut [u8],
    unconverted: &mut [u32],
    converted: &mut [u32],
) -> Count
    ensures { PassedOn count_reply GatedAs
        (evidence_arrays marks.old unconverted.old converted.old)
        (evidence_arrays marks.new unconverted.new converted.new)
        result }
{
    Count::from(gate_to_informative(&mut EvidenceOutputs {
        marks,
        unconverted,
        converted,
    }))
}

// The first len positions of an annotation's evidence. Refuses by 7, 8, 12.
#[unsafe(no_mangle)]
pub extern "C" fn gedrashiw_truncate(
    marks: &[u8],
    unconverted: &[u32],
    converted: &[u32],
    len: usize,
    marks_out: &mut [u8],
    unconverted_out: &mut [u32],
    converted_out: &mut [u32],
) -> Count
    ensures { PassedOn count_reply
        (TruncatedAs (evidence_arrays marks.now unconverted.now converted.now) len)
        (evidence_arrays marks_out.old unconverted_out.old converted_out.old)
        (evidence_arrays marks_out.new unconverted_out.new converted_out.new)
        result }
{
    let evidence = EvidenceSlices {
        marks,
        unconverted,
        converted,
    };
    let mut out = EvidenceOutputs {
        marks: marks_out,
        unconverted: unconverted_out,
        converted: converted_out,
    };
    Count::from(truncate(evidence, len, &mut out))
}

// The unconverted counts as tags hold them. Refuses by 7, 12.
#[unsafe(no_mangle)]
pub extern "C" fn gedrashiw_unconverted_counts(unconverted: &[u32], out: &mut [u16]) -> Count
    ensures value { result ≡ count_reply (answer (counts_refused unconverted.now out.old) (length unconverted.now)) }
    ensures out_after { out.new ≡ after (counts_refused unconverted.now out.old) (tag_counts unconverted.now) out.old }
{
    Count::from(unconverted_counts(unconverted, out))
}

// The converted counts as tags hold them. Refuses by 7, 12.
#[unsafe(no_mangle)]
pub extern "C" fn gedrashiw_converted_counts(converted: &[u32], out: &mut [u16]) -> Count
    ensures value { result ≡ count_reply (answer (counts_refused converted.now out.old) (length converted.now)) }
    ensures out_after { out.new ≡ after (counts_refused converted.now out.old) (tag_counts converted.now) out.old }
{
    Count::from(converted_counts(converted, out))
}

// The counts of two annotations summed, over so many positions. Refuses by 7, 12.
#[unsafe(no_mangle)]
pub extern "C" fn gedrashiw_summed_counts(
    positions: usize,
    a: &[u32],
    b: &[u32],
    out: &mut [u16],
) -> Count
    ensures value { result ≡ count_reply (answer (summed_refused positions a.now b.now out.old) positions) }
    ensures out_after { out.new ≡ after (summed_refused positions a.now b.now out.old) (summed_counts positions a.now b.now) out.old }
{
    Count::from(summed_counts(positions, a, b, out))
}
