// A molecule's reads before they are combined, from duplex_caller.rs: what their flags say, and the read gate. A read is given
// by its flags. Uses refusals, flags and duplex_min_reads.
#![tactic(auto)]

ghost use Rattle.std.specs.Prelude.{◌≡◌};
ghost use Rattle.refusals.specs.Refusal.{FewReads};
ghost use Rattle.duplex_reads.specs.Choices.{read_type_in};
ghost use Rattle.duplex_reads.specs.Reads.{is_paired, is_paired_r1, is_paired_r2, written_flags, count_r1, read_counts, GateAnswers, read_gate, all_reverse_as, same_strand};

use duplex_min_reads::{reaches, validate_min_reads};
use flags::{FIRST_SEGMENT, LAST_SEGMENT, PAIRED, REVERSE, is_set};
use refusals::{MAX_READS, Refusal, refuse};

// The flags of a consensus read: unmapped, and of a pair the mate too.
pub const R1_FLAGS: u16 = 77;

pub const R2_FLAGS: u16 = 141;

pub const FRAGMENT_FLAGS: u16 = 4;

// The place of a consensus read in its template.
#[derive(Clone, Copy, Debug, PartialEq, Eq)]
pub enum ReadType {
    Fragment,
    R1,
    R2,
}

// As a number, 0 is a fragment, 1 R1 and 2 R2.
impl TryFrom<u8> for ReadType {
    type Error = Refusal;

    ghost try_from_gives = { λ number answer. answer ≡ read_type_in number };

    fn try_from(number: u8) -> Result<Self, Refusal> {
        match number {
            0 => Ok(ReadType::Fragment),
            1 => Ok(ReadType::R1),
            2 => Ok(ReadType::R2),
            _ => Err(Refusal::Broken),
        }
    }
}

pub fn written_flags(read_type: ReadType) -> u16
    ensures { result ≡ written_flags read_type }
{
    match read_type {
        ReadType::Fragment => FRAGMENT_FLAGS,
        ReadType::R1 => R1_FLAGS,
        ReadType::R2 => R2_FLAGS,
    }
}

pub fn is_paired(flags: u16) -> bool
    ensures { result ≡ is_paired flags }
{
    is_set(flags, PAIRED)
}

// A first read of a pair. An unpaired read is never one.
pub fn is_paired_r1(flags: u16) -> bool
    ensures { result ≡ is_paired_r1 flags }
{
    is_paired(flags) & is_set(flags, FIRST_SEGMENT)
}

// A last read of a pair. An unpaired read is never one.
pub fn is_paired_r2(flags: u16) -> bool
    ensures { result ≡ is_paired_r2 flags }
{
    is_paired(flags) & is_set(flags, LAST_SEGMENT)
}

// So few that the sum fits its type.
fn count_r1(reads: &[u16]) -> u32
    requires { FewReads reads.now }
    ensures { result ≡ count_r1 reads.now }
{
    reads
        .iter()
        .map(|&flags| u32::from(is_paired_r1(flags)))
        .sum()
}

// A count of each strand: of its reads, or its depth.
#[derive(Clone, Copy)]
pub struct StrandCounts {
    pub a: u32,
    pub b: u32,
}

// A gate's answer by a count of each strand. Refuses by the thresholds' rows, then by what refuses the counts, of any type that a row
// becomes: a row, its number or another number.
pub fn gate_answer<E: From<Refusal> + Copy>(
    min_reads: &[u32],
    counts: Result<StrandCounts, E>,
) -> Result<bool, E>
    ensures { GateAnswers E.from_gives min_reads.now counts result }
{
    let thresholds = validate_min_reads(min_reads)?;
    let counts = counts?;
    Ok(reaches(thresholds, counts.a, counts.b))
}

// The paired first reads of each strand. Refuses by 9.
fn read_counts(a_reads: &[u16], b_reads: &[u16]) -> Result<StrandCounts, Refusal>
    ensures { result ≡ read_counts a_reads.now b_reads.now }
{
    refuse(
        (MAX_READS < a_reads.len()) | (MAX_READS < b_reads.len()),
        Refusal::TooManyReads,
    )?;
    Ok(StrandCounts {
        a: count_r1(a_reads),
        b: count_r1(b_reads),
    })
}

// The read gate: whether the paired first reads of the two strands reach the thresholds. Refuses by the thresholds' rows, then
// by 9.
pub fn has_minimum_number_of_reads(
    a_reads: &[u16],
    b_reads: &[u16],
    min_reads: &[u32],
) -> Result<bool, Refusal>
    ensures { result ≡ read_gate a_reads.now b_reads.now min_reads.now }
{
    gate_answer(min_reads, read_counts(a_reads, b_reads))
}

// Inlined for speed: of a block the compiler then knows how many reads it has.
#[inline(always)]
fn all_reverse_as(reverse: bool, reads: &[u16]) -> bool
    ensures { result ≡ all_reverse_as reverse reads.now }
{
    // Speed: by `all` 20 reads that are alike take 18 ns for 11, and the Rust 15.
    reads.iter().fold(true, |same, &flags| {
        same & (is_set(flags, REVERSE) == reverse)
    })
}

// So many reads are one block.
const BLOCK: usize = 16;

// The same in blocks, for speed: a block is looked at whole, and behind the first with a read of the other orientation no other is. The
// last block ends at the last read, so that it may have reads of the one before.
fn all_blocks_reverse_as(reverse: bool, reads: &[u16]) -> bool
    ensures { result ≡ all_reverse_as reverse reads.now }
{
    if reads.len() < BLOCK {
        return all_reverse_as(reverse, reads);
    }
    for block in 0..reads.len() / BLOCK {
        let start = BLOCK * block;
        if !all_reverse_as(reverse, &reads[start..start + BLOCK]) {
            return false;
        }
    }
    all_reverse_as(reverse, &reads[reads.len() - BLOCK..])
}

// Whether all reads have one orientation. No reads have. Refuses by 9.
pub fn are_all_same_strand(reads: &[u16]) -> Result<bool, Refusal>
    ensures { result ≡ same_strand reads.now }
{
    refuse(MAX_READS < reads.len(), Refusal::TooManyReads)?;
    Ok(reads.first().is_none_or(|&first| all_blocks_reverse_as(is_set(first, REVERSE), reads)))
}
