// What every consensus caller shares, from caller.rs: the clamps of depths and errors to fgbio's Short, the read name, and the
// error rate of a strand. Uses lists, refusals, numbers and rates.
#![tactic(auto)]

ghost use Rattle.std.specs.Prelude.{◌≡◌, ◌≤◌, ◌+◌, length};
ghost use Rattle.lists.specs.Output.{put};
ghost use Rattle.numbers.specs.Numbers.{total};
ghost use Rattle.rates.specs.Rate.{rate_of};
ghost use Rattle.refusals.specs.Outcome.{answer, after};
ghost use Rattle.caller.specs.Short.{short, short_of};
ghost use Rattle.caller.specs.Name.{read_name, name_too_short, name_refused};
ghost use Rattle.caller.specs.Rate.{rate_refused, error_rate};

use lists::copy;
use rates::error_rate;
use refusals::{MAX_POSITIONS, Refusal, refuse};

// The largest Short, fgbio's ceiling of a depth or an error count at a position.
pub const FGBIO_SHORT_DEPTH_MAX: u16 = 32767;

// A depth, or a strand's errors, at one position, held to the ceiling before it goes into any sum or extreme. The Rust's name, here and below, for
// std's `min` and `clamp`.
pub fn clamp_per_base_to_fgbio_short(depth: u16) -> u32
    ensures { result ≡ short depth }
{
    u32::from(depth.min(FGBIO_SHORT_DEPTH_MAX))
}

// A record's errors at one position, which an estimate may put below zero, held to 0..FGBIO_SHORT_DEPTH_MAX.
pub fn clamp_combined_error_to_fgbio_short(error_sum: i32) -> u16
    ensures { result ≡ short_of error_sum }
{
    error_sum.clamp(0, i32::from(FGBIO_SHORT_DEPTH_MAX)) as u16
}

// Row 12's condition for a name of these lengths, whose sum may pass a machine word.
fn name_too_short(read_name_prefix: usize, umi: usize, out: usize) -> bool
    ensures { result ≡ name_too_short read_name_prefix umi out }
{
    out.saturating_sub(read_name_prefix) <= umi
}

// By slices, no `write!`: no heap, and bytes of any kind.
fn write_name(out: &mut [u8], read_name_prefix: &[u8], umi: &[u8])
    requires { length (read_name read_name_prefix.now umi.now) ≤ length out.old }
    ensures { out.new ≡ put (read_name read_name_prefix.now umi.now) out.old }
{
    copy(read_name_prefix, out);
    let at = read_name_prefix.len();
    out[at] = b':';
    let rest = at + 1;
    copy(umi, &mut out[rest..]);
}

// Writes the prefix, a colon and the UMI, of any lengths, and answers how many bytes that is. Refuses by 12.
pub fn write_consensus_read_name(
    out: &mut [u8],
    read_name_prefix: &[u8],
    umi: &[u8],
) -> Result<usize, Refusal>
    ensures value { result ≡ answer (name_refused read_name_prefix.now umi.now out.old) (length (read_name read_name_prefix.now umi.now)) }
    ensures out_after { out.new ≡ after (name_refused read_name_prefix.now umi.now out.old) (read_name read_name_prefix.now umi.now) out.old }
{
    refuse(
        name_too_short(read_name_prefix.len(), umi.len(), out.len()),
        Refusal::OutputTooShort,
    )?;
    write_name(out, read_name_prefix, umi);
    Ok(read_name_prefix.len() + 1 + umi.len())
}

// The refusal of a strand's depths and errors of these lengths, if any. Two lengths and no struct of both: calculate_error_rate has two slices,
// and would build it for this call alone.
pub fn rate_refusal(depths: usize, errors: usize) -> Result<(), Refusal>
    ensures { result ≡ answer (rate_refused depths errors) tt }
{
    refuse(
        (MAX_POSITIONS < depths) | (MAX_POSITIONS < errors),
        Refusal::TooLong,
    )?;
    refuse(errors != depths, Refusal::Ragged)
}

// All errors over all depths. One loop adds both, for speed: by a `sum` of each 150 positions take 52 ns for 45, and the Rust 50.
fn rate_of(depths: &[u16], errors: &[u16]) -> f32
    requires { (length errors.now ≡ length depths.now) × (length depths.now ≤ 1024) }
    ensures { result ≡ rate_of (total errors.now) (total depths.now) }
{
    let mut all_depths = 0;
    let mut all_errors = 0;
    for (&depth, &error) in depths.iter().zip(errors) {
        all_depths += u32::from(depth);
        all_errors += u32::from(error);
    }
    error_rate(all_errors, all_depths)
}

// All errors of a strand over all its depths, none of them held; 0 where the depths sum to 0. Two parameters and no struct of both: the Rust's
// own. Refuses by 7, 8.
pub fn calculate_error_rate(depths: &[u16], errors: &[u16]) -> Result<f32, Refusal>
    ensures { result ≡ error_rate depths.now errors.now }
{
    rate_refusal(depths.len(), errors.len())?;
    Ok(rate_of(depths, errors))
}
