// What one position, one number or one read says. The calls are those of rust_numbers.
ghost use Rattle.std.specs.Prelude.{◌≡◌, length, cond};
ghost use Rattle.phred.specs.Phred.{capped_quality, ceiling_faults};
ghost use Rattle.caller.specs.Short.{short, short_of};
ghost use Rattle.rates.specs.Rate.{bits_of};
ghost use Rattle.caller.specs.Rate.{error_rate};
ghost use Rattle.rust_numbers.specs.Replies.{rate_reply, bit, no_bases, bases_reply, call_reply};
ghost use Rattle.refusals.specs.Refusal.{refused};
ghost use Rattle.refusals.specs.Outcome.{answer, after};
ghost use Rattle.caller.specs.Name.{read_name, name_refused};
ghost use Rattle.methylation.specs.Methylation.{is_enabled, pattern_of_flags, pattern_bases, is_cpg_context};
ghost use Rattle.methylation.specs.Choices.{mode_of, wrong_mode, pattern_number, pattern_of, wrong_pattern};
ghost use Rattle.replies.specs.Choices.{yes};
ghost use Rattle.replies.specs.Replies.{count_reply, number_reply, no_number, numbered};
ghost use Rattle.duplex_reads.specs.Reads.{is_paired, is_paired_r1, is_paired_r2};
ghost use Rattle.duplex_molecule.specs.Molecule.{is_error, molecule_call};

use replies::{Count, Number};
use rust_numbers::{Bases, Call};

// A score held to 2 and a ceiling. Refuses by 14.
#[unsafe(no_mangle)]
pub extern "C" fn gedrashiw_cap_quality(score: u16, ceiling: u8) -> Number
    ensures { result ≡ number_reply (answer (refused (ceiling_faults ceiling)) (capped_quality ceiling score)) }
{
    rust_numbers::gedrashiw_cap_quality(score, ceiling)
}

#[unsafe(no_mangle)]
pub extern "C" fn gedrashiw_clamp_per_base_to_fgbio_short(depth: u16) -> u32
    ensures { result ≡ short depth }
{
    rust_numbers::gedrashiw_clamp_per_base_to_fgbio_short(depth)
}

#[unsafe(no_mangle)]
pub extern "C" fn gedrashiw_clamp_combined_error_to_fgbio_short(error_sum: i32) -> u16
    ensures { result ≡ short_of error_sum }
{
    rust_numbers::gedrashiw_clamp_combined_error_to_fgbio_short(error_sum)
}

#[unsafe(no_mangle)]
pub extern "C" fn gedrashiw_rate_bits(errors: u32, depth: u32) -> u32
    ensures { result ≡ bits_of errors depth }
{
    rust_numbers::gedrashiw_rate_bits(errors, depth)
}

// The rate's bits.
#[unsafe(no_mangle)]
pub extern "C" fn gedrashiw_calculate_error_rate(depths: &[u16], errors: &[u16]) -> Number
    ensures { result ≡ rate_reply (error_rate depths.now errors.now) }
{
    rust_numbers::gedrashiw_calculate_error_rate(depths, errors)
}

#[unsafe(no_mangle)]
pub extern "C" fn gedrashiw_write_consensus_read_name(
    out: &mut [u8],
    read_name_prefix: &[u8],
    umi: &[u8],
) -> Count
    ensures value { result ≡ count_reply (answer (name_refused read_name_prefix.now umi.now out.old) (length (read_name read_name_prefix.now umi.now))) }
    ensures out_after { out.new ≡ after (name_refused read_name_prefix.now umi.now out.old) (read_name read_name_prefix.now umi.now) out.old }
{
    rust_numbers::gedrashiw_write_consensus_read_name(out, read_name_prefix, umi)
}

// 1 for EM-Seq and TAPs, 0 for Disabled. Refuses by 13.
#[unsafe(no_mangle)]
pub extern "C" fn gedrashiw_is_enabled(mode: u8) -> Number
    ensures { result ≡ cond (wrong_mode mode) (no_number 13) (numbered (bit (is_enabled (mode_of mode)))) }
{
    rust_numbers::gedrashiw_is_enabled(mode)
}

// The pattern: 1 is C to T, 2 G to A.
#[unsafe(no_mangle)]
pub extern "C" fn gedrashiw_from_read_flags(read_flags: u16) -> u8
    ensures { result ≡ pattern_number (pattern_of_flags read_flags) }
{
    rust_numbers::gedrashiw_from_read_flags(read_flags)
}

// The letters of a pattern. Refuses by 13.
#[unsafe(no_mangle)]
pub extern "C" fn gedrashiw_bases(pattern: u8) -> Bases
    ensures { result ≡ cond (wrong_pattern pattern) (no_bases 13) (bases_reply (pattern_bases (pattern_of pattern))) }
{
    rust_numbers::gedrashiw_bases(pattern)
}

// Any number but 0 is the top strand.
#[unsafe(no_mangle)]
pub extern "C" fn gedrashiw_is_cpg_context(ref_seq: &[u8], pos: usize, is_top_strand: u8) -> u8
    ensures { result ≡ bit (is_cpg_context ref_seq.now pos (yes is_top_strand)) }
{
    rust_numbers::gedrashiw_is_cpg_context(ref_seq, pos, is_top_strand)
}

#[unsafe(no_mangle)]
pub extern "C" fn gedrashiw_is_paired(flags: u16) -> u8
    ensures { result ≡ bit (is_paired flags) }
{
    rust_numbers::gedrashiw_is_paired(flags)
}

#[unsafe(no_mangle)]
pub extern "C" fn gedrashiw_is_paired_r1(flags: u16) -> u8
    ensures { result ≡ bit (is_paired_r1 flags) }
{
    rust_numbers::gedrashiw_is_paired_r1(flags)
}

#[unsafe(no_mangle)]
pub extern "C" fn gedrashiw_is_paired_r2(flags: u16) -> u8
    ensures { result ≡ bit (is_paired_r2 flags) }
{
    rust_numbers::gedrashiw_is_paired_r2(flags)
}

#[unsafe(no_mangle)]
pub extern "C" fn gedrashiw_is_error(source_base: u8, consensus_base: u8) -> u8
    ensures { result ≡ bit (is_error source_base consensus_base) }
{
    rust_numbers::gedrashiw_is_error(source_base, consensus_base)
}

#[unsafe(no_mangle)]
pub extern "C" fn gedrashiw_molecule_call(ct_base: u8, ga_base: u8) -> Call
    ensures { result ≡ call_reply (molecule_call ct_base ga_base) }
{
    rust_numbers::gedrashiw_molecule_call(ct_base, ga_base)
}
