// The calls of a molecule's reads: the gates, and the partition by strand. The calls are those of rust_reads.
ghost use Rattle.std.specs.Prelude.{◌≡◌};
ghost use Rattle.duplex_reads.specs.Reads.{read_gate, same_strand};
ghost use Rattle.replies.specs.Replies.{bit_reply};
ghost use Rattle.rust_reads.specs.Replies.{PartitionRepliedAs};
ghost use Rattle.duplex_gate.specs.ConsensusGate.{consensus_gate};

use duplex_partition::MiPart;
use replies::Number;
use rust_reads::PartitionReply;

// The read gate: 1 is kept, 0 below.
#[unsafe(no_mangle)]
pub extern "C" fn gedrashiw_has_minimum_number_of_reads(
    a_reads: &[u16],
    b_reads: &[u16],
    min_reads: &[u32],
) -> Number
    ensures { result ≡ bit_reply (read_gate a_reads.now b_reads.now min_reads.now) }
{
    rust_reads::gedrashiw_has_minimum_number_of_reads(a_reads, b_reads, min_reads)
}

// The consensus gate: 1 is kept, 0 below.
#[unsafe(no_mangle)]
pub extern "C" fn gedrashiw_duplex_consensus_has_minimum_reads(
    positions: usize,
    ab_depths: &[u16],
    ba_depths: &[u16],
    min_reads: &[u32],
) -> Number
    ensures { result ≡ bit_reply (consensus_gate positions ab_depths.now ba_depths.now min_reads.now) }
{
    rust_reads::gedrashiw_duplex_consensus_has_minimum_reads(
        positions, ab_depths, ba_depths, min_reads,
    )
}

// 1: all reads have one orientation; 0: they have not.
#[unsafe(no_mangle)]
pub extern "C" fn gedrashiw_are_all_same_strand(reads: &[u16]) -> Number
    ensures { result ≡ bit_reply (same_strand reads.now) }
{
    rust_reads::gedrashiw_are_all_same_strand(reads)
}

#[unsafe(no_mangle)]
pub extern "C" fn gedrashiw_partition_records_by_strand(
    reads: &[MiPart],
    bytes: &[u8],
    a_out: &mut [u16],
    b_out: &mut [u16],
) -> PartitionReply
    ensures { PartitionRepliedAs reads.now bytes.now a_out.old b_out.old a_out.new b_out.new result }
{
    rust_reads::gedrashiw_partition_records_by_strand(reads, bytes, a_out, b_out)
}
