// Entry points over numbers: the calls of a molecule's reads, the gates and the partition, with answers as numbers. What a call
// answers is the library's. Uses refusals, replies, duplex_reads, duplex_depths, duplex_gate and duplex_partition.
#![tactic(auto)]

ghost use Rattle.std.specs.Prelude.{◌≡◌};
ghost use Rattle.replies.specs.Replies.{bit_reply};
ghost use Rattle.duplex_reads.specs.Reads.{read_gate, same_strand};
ghost use Rattle.duplex_gate.specs.ConsensusGate.{consensus_gate};
ghost use Rattle.rust_reads.specs.Replies.{partition_reply, PartitionRepliedAs};

use duplex_depths::RecordDepths;
use duplex_gate::duplex_consensus_has_minimum_reads;
use duplex_partition::{MiPart, Partition, partition_records_by_strand};
use duplex_reads::{are_all_same_strand, has_minimum_number_of_reads};
use refusals::Refusal;
use replies::Number;

// `refused` is the refusal's number; where it is 0, so many read numbers are written to the list of A and to that of B, and base_mi
// is 1 with the base MI's part of the bytes, or 0 without reads.
#[repr(C)]
#[derive(Clone, Copy)]
pub struct PartitionReply {
    pub refused: u8,
    pub base_mi: u8,
    pub a: usize,
    pub b: usize,
    pub offset: usize,
    pub length: usize,
}

// The numbers are those that C sees.
impl From<Result<Partition, Refusal>> for PartitionReply {
    ghost from_gives = { λ answer reply. reply ≡ partition_reply answer };

    fn from(answer: Result<Partition, Refusal>) -> PartitionReply {
        match answer {
            Ok(
                Partition {
                    a,
                    b,
                    base_mi: Some(part),
                },
            ) => PartitionReply {
                refused: 0,
                base_mi: 1,
                a,
                b,
                offset: part.offset,
                length: part.length,
            },
            Ok(
                Partition {
                    a,
                    b,
                    base_mi: None,
                },
            ) => PartitionReply {
                refused: 0,
                base_mi: 0,
                a,
                b,
                offset: 0,
                length: 0,
            },
            Err(refusal) => PartitionReply {
                refused: refusal.number(),
                base_mi: 0,
                a: 0,
                b: 0,
                offset: 0,
                length: 0,
            },
        }
    }
}

// The read gate: 1 is kept, 0 below.
#[unsafe(no_mangle)]
pub extern "C" fn gedrashiw_has_minimum_number_of_reads(
    a_reads: &[u16],
    b_reads: &[u16],
    min_reads: &[u32],
) -> Number
    ensures { result ≡ bit_reply (read_gate a_reads.now b_reads.now min_reads.now) }
{
    Number::from(has_minimum_number_of_reads(a_reads, b_reads, min_reads))
}

// The consensus gate: 1 is kept, 0 below.
#[unsafe(no_mangle)]
pub extern "C" fn gedrashiw_duplex_consensus_has_minimum_reads(
    positions: usize,
    ab_depths: &[u16],
    ba_depths: &[u16],
    min_reads: &[u32],
) -> Number
    ensures { result ≡ bit_reply (consensus_gate positions ab_depths.now ba_depths.now min_reads.now) }
{
    let r = RecordDepths {
        positions,
        ab: ab_depths,
        ba: ba_depths,
    };
    Number::from(duplex_consensus_has_minimum_reads(r, min_reads))
}

// 1: all reads have one orientation; 0: they have not.
#[unsafe(no_mangle)]
pub extern "C" fn gedrashiw_are_all_same_strand(reads: &[u16]) -> Number
    ensures { result ≡ bit_reply (same_strand reads.now) }
{
    Number::from(are_all_same_strand(reads))
}

#[unsafe(no_mangle)]
pub extern "C" fn gedrashiw_partition_records_by_strand(
    reads: &[MiPart],
    bytes: &[u8],
    a_out: &mut [u16],
    b_out: &mut [u16],
) -> PartitionReply
    ensures { PartitionRepliedAs reads.now bytes.now a_out.old b_out.old a_out.new b_out.new result }
{
    PartitionReply::from(partition_records_by_strand(reads, bytes, a_out, b_out))
}
