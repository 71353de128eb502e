// Entry points over numbers: the thresholds, the flags of a consensus read and the strand that an MI names, with answers and choices
// as numbers. What a call answers is the library's. Uses refusals, replies, duplex_min_reads, duplex_reads and duplex_partition.
#![tactic(auto)]

ghost use Rattle.std.specs.Prelude.{◌≡◌, cond};
ghost use Rattle.replies.specs.Replies.{bit_reply, no_number, number_reply, numbered};
ghost use Rattle.duplex_min_reads.specs.MinReads.{validated, min_yx_reads, single_strand};
ghost use Rattle.duplex_reads.specs.Choices.{read_type_of, wrong_read_type};
ghost use Rattle.duplex_reads.specs.Reads.{written_flags};
ghost use Rattle.duplex_partition.specs.Partition.{strand_of};
ghost use Rattle.rust_thresholds.specs.Replies.{thresholds_reply, strand_number};

use duplex_min_reads::{
    MinReads, allows_single_strand_consensus, min_yx_reads_for, validate_min_reads,
};
use duplex_partition::extract_strand_from_mi_bytes;
use duplex_reads::{ReadType, written_flags};
use refusals::Refusal;
use replies::Number;

// `refused` is the refusal's number; where it is 0, the three thresholds.
#[repr(C)]
#[derive(Clone, Copy)]
pub struct Thresholds {
    pub refused: u8,
    pub total: u32,
    pub xy: u32,
    pub yx: u32,
}

// The numbers are those that C sees.
impl From<Result<MinReads, Refusal>> for Thresholds {
    ghost from_gives = { λ answer reply. reply ≡ thresholds_reply answer };

    fn from(answer: Result<MinReads, Refusal>) -> Thresholds {
        match answer {
            Ok(t) => Thresholds {
                refused: 0,
                total: t.total,
                xy: t.xy,
                yx: t.yx,
            },
            Err(refusal) => Thresholds {
                refused: refusal.number(),
                total: 0,
                xy: 0,
                yx: 0,
            },
        }
    }
}

#[unsafe(no_mangle)]
pub extern "C" fn gedrashiw_validate_min_reads(min_reads: &[u32]) -> Thresholds
    ensures { result ≡ thresholds_reply (validated min_reads.now) }
{
    Thresholds::from(validate_min_reads(min_reads))
}

#[unsafe(no_mangle)]
pub extern "C" fn gedrashiw_min_yx_reads_for(min_reads: &[u32]) -> Number
    ensures { result ≡ number_reply (min_yx_reads min_reads.now) }
{
    Number::from(min_yx_reads_for(min_reads))
}

// 1: allowed; 0: not.
#[unsafe(no_mangle)]
pub extern "C" fn gedrashiw_allows_single_strand_consensus(min_reads: &[u32]) -> Number
    ensures { result ≡ bit_reply (single_strand min_reads.now) }
{
    Number::from(allows_single_strand_consensus(min_reads))
}

// The flags of a read type. Refuses by 13.
#[unsafe(no_mangle)]
pub extern "C" fn gedrashiw_written_flags(read_type: u8) -> Number
    ensures { result ≡ cond (wrong_read_type read_type) (no_number 13) (numbered (written_flags (read_type_of read_type))) }
{
    Number::from(
        ReadType::try_from(read_type)
            .map(written_flags)
            .map(u32::from),
    )
}

// 0 where no strand is named, 1 for A, 2 for B.
#[unsafe(no_mangle)]
pub extern "C" fn gedrashiw_extract_strand_from_mi_bytes(mi_bytes: &[u8]) -> u8
    ensures { result ≡ strand_number (strand_of mi_bytes.now) }
{
    extract_strand_from_mi_bytes(mi_bytes).map_or(0, |strand| strand as u8)
}
