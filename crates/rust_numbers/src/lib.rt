// Entry points over numbers: the calls of one quality, depth, rate, name, pattern, flag and base, with answers and choices as numbers.
// What a call answers is the library's. Uses refusals, phred, rates, caller, methylation, replies, duplex_reads and duplex_molecule.
#![tactic(auto)]

ghost use Rattle.std.specs.Prelude.{◌≡◌, cond, length};
ghost use Rattle.refusals.specs.Outcome.{answer, after};
ghost use Rattle.refusals.specs.Refusal.{refused};
ghost use Rattle.phred.specs.Phred.{capped_quality, ceiling_faults};
ghost use Rattle.rates.specs.Rate.{bits_of};
ghost use Rattle.caller.specs.Short.{short, short_of};
ghost use Rattle.caller.specs.Name.{read_name, name_refused};
ghost use Rattle.caller.specs.Rate.{error_rate};
ghost use Rattle.methylation.specs.Methylation.{is_enabled, pattern_of_flags, pattern_bases, is_cpg_context};
ghost use Rattle.methylation.specs.Choices.{pattern_number, pattern_of, wrong_pattern, mode_of, wrong_mode};
ghost use Rattle.replies.specs.Choices.{yes};
ghost use Rattle.replies.specs.Replies.{count_reply, number_reply, no_number, numbered};
ghost use Rattle.duplex_reads.specs.Reads.{is_paired, is_paired_r1, is_paired_r2};
ghost use Rattle.duplex_molecule.specs.Molecule.{is_error, molecule_call};
ghost use Rattle.rust_numbers.specs.Replies.{bit, rate_reply, no_bases, bases_reply, letters_reply, call_reply};

use caller::{
    calculate_error_rate, clamp_combined_error_to_fgbio_short, clamp_per_base_to_fgbio_short,
    write_consensus_read_name,
};
use duplex_molecule::{MoleculeCall, is_error, molecule_call};
use duplex_reads::{is_paired, is_paired_r1, is_paired_r2};
use methylation::{ConversionPattern, MethylationMode, PatternBases, is_cpg_context};
use phred::{Ceiling, cap_quality};
use rates::rate_bits;
use refusals::Refusal;
use replies::{Count, Number};

// `refused` is the refusal's number; where it is 0, a pattern's letters.
#[repr(C)]
#[derive(Clone, Copy)]
pub struct Bases {
    pub refused: u8,
    pub reference: u8,
    pub unconverted: u8,
    pub converted: u8,
}

// The numbers are those that C sees.
impl From<Result<PatternBases, Refusal>> for Bases {
    ghost from_gives = { λ letters reply. reply ≡ letters_reply letters };

    fn from(letters: Result<PatternBases, Refusal>) -> Bases {
        match letters {
            Ok(letters) => Bases {
                refused: 0,
                reference: letters.reference,
                unconverted: letters.unconverted,
                converted: letters.converted,
            },
            Err(refusal) => Bases {
                refused: refusal.number(),
                reference: 0,
                unconverted: 0,
                converted: 0,
            },
        }
    }
}

// The methylation call at a position; where pattern is 0 there is none.
#[repr(C)]
#[derive(Clone, Copy)]
pub struct Call {
    pub pattern: u8,
    pub call: u8,
    pub confirmed: u8,
}

// A score held to 2 and a ceiling. Refuses by 14.
#[unsafe(no_mangle)]
pub extern "C" fn gedrashiw_cap_quality(score: u16, ceiling: u8) -> Number
    ensures { result ≡ number_reply (answer (refused (ceiling_faults ceiling)) (capped_quality ceiling score)) }
{
    Number::from(Ceiling::new(ceiling).map(|ceiling| u32::from(cap_quality(score, ceiling))))
}

#[unsafe(no_mangle)]
pub extern "C" fn gedrashiw_clamp_per_base_to_fgbio_short(depth: u16) -> u32
    ensures { result ≡ short depth }
{
    clamp_per_base_to_fgbio_short(depth)
}

#[unsafe(no_mangle)]
pub extern "C" fn gedrashiw_clamp_combined_error_to_fgbio_short(error_sum: i32) -> u16
    ensures { result ≡ short_of error_sum }
{
    clamp_combined_error_to_fgbio_short(error_sum)
}

#[unsafe(no_mangle)]
pub extern "C" fn gedrashiw_rate_bits(errors: u32, depth: u32) -> u32
    ensures { result ≡ bits_of errors depth }
{
    rate_bits(errors, depth)
}

// The bits of a strand's rate.
fn error_rate_bits(depths: &[u16], errors: &[u16]) -> Result<u32, Refusal>
    ensures { number_reply result ≡ rate_reply (error_rate depths.now errors.now) }
{
    let rate = calculate_error_rate(depths, errors)?;
    Ok(f32::to_bits(rate))
}

#[unsafe(no_mangle)]
pub extern "C" fn gedrashiw_calculate_error_rate(depths: &[u16], errors: &[u16]) -> Number
    ensures { result ≡ rate_reply (error_rate depths.now errors.now) }
{
    Number::from(error_rate_bits(depths, errors))
}

#[unsafe(no_mangle)]
pub extern "C" fn gedrashiw_write_consensus_read_name(
    out: &mut [u8],
    read_name_prefix: &[u8],
    umi: &[u8],
) -> Count
    ensures value { result ≡ count_reply (answer (name_refused read_name_prefix.now umi.now out.old) (length (read_name read_name_prefix.now umi.now))) }
    ensures out_after { out.new ≡ after (name_refused read_name_prefix.now umi.now out.old) (read_name read_name_prefix.now umi.now) out.old }
{
    Count::from(write_consensus_read_name(out, read_name_prefix, umi))
}

// 1 for EM-Seq and TAPs, 0 for Disabled. Refuses by 13.
#[unsafe(no_mangle)]
pub extern "C" fn gedrashiw_is_enabled(mode: u8) -> Number
    ensures { result ≡ cond (wrong_mode mode) (no_number 13) (numbered (bit (is_enabled (mode_of mode)))) }
{
    Number::from(MethylationMode::try_from(mode).map(|mode| mode.is_enabled()))
}

// 1: C to T; 2: G to A.
#[unsafe(no_mangle)]
pub extern "C" fn gedrashiw_from_read_flags(read_flags: u16) -> u8
    ensures { result ≡ pattern_number (pattern_of_flags read_flags) }
{
    ConversionPattern::from_read_flags(read_flags).number()
}

// The letters of a pattern. Refuses by 13.
#[unsafe(no_mangle)]
pub extern "C" fn gedrashiw_bases(pattern: u8) -> Bases
    ensures { result ≡ cond (wrong_pattern pattern) (no_bases 13) (bases_reply (pattern_bases (pattern_of pattern))) }
{
    Bases::from(ConversionPattern::try_from(pattern).map(|pattern| pattern.bases()))
}

#[unsafe(no_mangle)]
pub extern "C" fn gedrashiw_is_cpg_context(ref_seq: &[u8], pos: usize, is_top_strand: u8) -> u8
    ensures { result ≡ bit (is_cpg_context ref_seq.now pos (yes is_top_strand)) }
{
    u8::from(is_cpg_context(ref_seq, pos, is_top_strand != 0))
}

#[unsafe(no_mangle)]
pub extern "C" fn gedrashiw_is_paired(flags: u16) -> u8
    ensures { result ≡ bit (is_paired flags) }
{
    u8::from(is_paired(flags))
}

#[unsafe(no_mangle)]
pub extern "C" fn gedrashiw_is_paired_r1(flags: u16) -> u8
    ensures { result ≡ bit (is_paired_r1 flags) }
{
    u8::from(is_paired_r1(flags))
}

#[unsafe(no_mangle)]
pub extern "C" fn gedrashiw_is_paired_r2(flags: u16) -> u8
    ensures { result ≡ bit (is_paired_r2 flags) }
{
    u8::from(is_paired_r2(flags))
}

#[unsafe(no_mangle)]
pub extern "C" fn gedrashiw_is_error(source_base: u8, consensus_base: u8) -> u8
    ensures { result ≡ bit (is_error source_base consensus_base) }
{
    u8::from(is_error(source_base, consensus_base))
}

// The numbers are those that C sees.
impl From<Option<MoleculeCall>> for Call {
    ghost from_gives = { λ call reply. reply ≡ call_reply call };

    fn from(call: Option<MoleculeCall>) -> Call {
        match call {
            Some(call) => Call {
                pattern: call.pattern.number(),
                call: call.call,
                confirmed: call.confirmed,
            },
            None => Call {
                pattern: 0,
                call: 0,
                confirmed: 0,
            },
        }
    }
}

#[unsafe(no_mangle)]
pub extern "C" fn gedrashiw_molecule_call(ct_base: u8, ga_base: u8) -> Call
    ensures { result ≡ call_reply (molecule_call ct_base ga_base) }
{
    Call::from(molecule_call(ct_base, ga_base))
}
