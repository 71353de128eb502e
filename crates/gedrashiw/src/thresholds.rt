// The thresholds of read counts, and what a read is written as. The calls are those of rust_thresholds.
ghost use Rattle.std.specs.Prelude.{◌≡◌, cond};
ghost use Rattle.duplex_min_reads.specs.MinReads.{validated, min_yx_reads, single_strand};
ghost use Rattle.rust_thresholds.specs.Replies.{thresholds_reply, strand_number};
ghost use Rattle.replies.specs.Replies.{bit_reply, no_number, number_reply, numbered};
ghost use Rattle.duplex_reads.specs.Choices.{read_type_of, wrong_read_type};
ghost use Rattle.duplex_reads.specs.Reads.{written_flags};
ghost use Rattle.duplex_partition.specs.Partition.{strand_of};

use replies::Number;
use rust_thresholds::Thresholds;

#[unsafe(no_mangle)]
pub extern "C" fn gedrashiw_validate_min_reads(min_reads: &[u32]) -> Thresholds
    ensures { result ≡ thresholds_reply (validated min_reads.now) }
{
    rust_thresholds::gedrashiw_validate_min_reads(min_reads)
}

#[unsafe(no_mangle)]
pub extern "C" fn gedrashiw_min_yx_reads_for(min_reads: &[u32]) -> Number
    ensures { result ≡ number_reply (min_yx_reads min_reads.now) }
{
    rust_thresholds::gedrashiw_min_yx_reads_for(min_reads)
}

// 1: allowed; 0: not.
#[unsafe(no_mangle)]
pub extern "C" fn gedrashiw_allows_single_strand_consensus(min_reads: &[u32]) -> Number
    ensures { result ≡ bit_reply (single_strand min_reads.now) }
{
    rust_thresholds::gedrashiw_allows_single_strand_consensus(min_reads)
}

// The flags of a read type. Refuses by 13.
#[unsafe(no_mangle)]
pub extern "C" fn gedrashiw_written_flags(read_type: u8) -> Number
    ensures { result ≡ cond (wrong_read_type read_type) (no_number 13) (numbered (written_flags (read_type_of read_type))) }
{
    rust_thresholds::gedrashiw_written_flags(read_type)
}

// 0 where no strand is named, 1 for A, 2 for B.
#[unsafe(no_mangle)]
pub extern "C" fn gedrashiw_extract_strand_from_mi_bytes(mi_bytes: &[u8]) -> u8
    ensures { result ≡ strand_number (strand_of mi_bytes.now) }
{
    rust_thresholds::gedrashiw_extract_strand_from_mi_bytes(mi_bytes)
}
