// The MM and ML tags of one strand, from methylation.rs. Uses lists, refusals, decimal, methylation and methylation_calls.
#![tactic(auto)]

ghost use Rattle.std.specs.Prelude.{◌≡◌, ◌++◌, ◌∷◌, ◌+◌, ◌<◌, ◌≤◌, length, take};
ghost use Rattle.lists.specs.Output.{put};
ghost use Rattle.decimal.specs.Decimal.{decimal};
ghost use Rattle.mm_ml.specs.Text.{prefix_of};
ghost use Rattle.mm_ml.specs.Tags.{annotated_in, called_at, all_calls, all_text, all_bytes, tag_lengths, Evident, Counted, TaggedAs, MmTaggedAs};

use decimal::write_decimal;
use lists::copy;
use methylation::{
    ConversionPattern, Evidence, MethylationAnnotation, MethylationMode, evidence_too_long,
    evidence_uneven,
};
use methylation_calls::{is_called, is_tracked, ml_of};
use refusals::{MAX_POSITIONS, Refusal, refuse};

// The MM group of pattern C to T: 5mC on the strand of the sequence, at its Cs.
pub const C_TO_T_PREFIX: [u8; 4] = *b"C+m?";

// The MM group of pattern G to A: 5mC on the opposite strand, at the sequence's Gs.
pub const G_TO_A_PREFIX: [u8; 4] = *b"G-m?";

// The sequence and a strand's annotation, as lent slices.
#[derive(Clone, Copy)]
pub struct AnnotatedBases<'a> {
    pub bases: &'a [u8],
    pub annotation: MethylationAnnotation<'a>,
}

// A strand that no row refuses: evidence for each base, and at most 1,024 of them.
#[derive(Clone, Copy)]
struct EvidentBases<'a> {
    strand: AnnotatedBases<'a>,
    ghost evident: { Evident (annotated_in strand) },
}

// How many bytes a strand's MM text and ML array have; by default none.
#[derive(Clone, Copy, Default)]
pub struct TagLengths {
    pub mm: usize,
    pub ml: usize,
}

// The MM group's prefix of a pattern.
pub fn mm_prefix(pattern: ConversionPattern) -> [u8; 4]
    ensures { result ≡ prefix_of pattern }
{
    match pattern {
        ConversionPattern::CToT => C_TO_T_PREFIX,
        ConversionPattern::GToA => G_TO_A_PREFIX,
    }
}

// How many digits a skip count has.
// By comparisons: `checked_ilog10` answers None for 0, which has a digit too, and looks up a power of ten in a table.
#[tactic(auto, using(decimal::proofs::Decimal::length_one, decimal::proofs::Decimal::length_more))]
fn skip_length(skip: usize) -> usize
    requires { skip < 1024 }
    ensures { result ≡ length (decimal skip) }
{
    match skip {
        0..=9 => 1,
        10..=99 => 2,
        100..=999 => 3,
        _ => 4,
    }
}

// A comma and a skip count at a place of mm; answers the place after them. By slices, no `write!`: no heap.
// No `line_output::Writer`: a tag's layer knows nothing of the printed line's (docs/ARCHITECTURE.md).
fn write_skip(mm: &mut [u8], at: usize, skip: usize) -> usize
    requires { at + length (44 ∷ decimal skip) ≤ length mm.old }
    ensures value { result ≡ at + length (44 ∷ decimal skip) }
    ensures mm_after { mm.new ≡ put (take at mm.old ++ (44 ∷ decimal skip)) mm.old }
{
    mm[at] = b',';
    let next = at + 1;
    next + write_decimal(skip as u64, &mut mm[next..])
}

impl EvidentBases<'_> {
    // Whether the base at a position is called.
    #[tactic(auto, unfolding(crate::specs::Tags::called_at))]
    fn called_at(self, i: usize) -> bool
        requires { i < length self.strand.bases.now }
        ensures { result ≡ called_at (annotated_in self.entry.strand) i }
    {
        let MethylationAnnotation { pattern, evidence } = self.strand.annotation;
        let here = Evidence {
            mark: evidence.marks[i],
            unconverted: evidence.unconverted[i],
            converted: evidence.converted[i],
        };
        is_called(pattern, self.strand.bases[i], here)
    }

    // The length of the listed skip counts, and how many there are. A turn chooses between values and not between ways, since
    // whether a base is called cannot be foretold.
    fn listed_length(self) -> TagLengths
        ensures { Counted (annotated_in self.entry.strand) result }
    {
        let s = self.strand;
        let mut mm = 0;
        let mut ml = 0;
        let mut skip = 0;
        // By place, here and in `write_mm_ml`: whether a base is called three arrays more tell at its place, and by `zip`s the four would
        // come as pairs in pairs.
        for (i, &base) in s.bases.iter().enumerate() {
            let called = self.called_at(i);
            let listed = usize::from(called);
            mm += listed * (1 + skip_length(skip));
            ml += listed;
            skip = if called {
                0
            } else {
                skip + usize::from(is_tracked(s.annotation.pattern, base))
            };
        }
        TagLengths { mm, ml }
    }

    // How many bytes the tags have. No tag in mode Disabled, or where nothing is called.
    fn tag_lengths(self, mode: MethylationMode) -> Option<TagLengths>
        ensures { result ≡ tag_lengths mode (annotated_in self.entry.strand) }
    {
        if !mode.is_enabled() {
            return None;
        }
        let counts = self.listed_length();
        if counts.ml == 0 {
            return None;
        }
        Some(TagLengths {
            mm: counts.mm + 5,
            ml: counts.ml,
        })
    }

    // The group's text: the prefix, the listed skip counts and the semicolon; and the ML bytes.
    // By hand, not by Display: no heap, and what a `write!` into fixed memory leaves where it fails no clause says.
    fn write_mm_ml(self, mode: MethylationMode, mm: &mut [u8], ml: &mut [u8])
        requires mm_fits { length (all_text (annotated_in self.strand)) ≤ length mm.old }
        requires ml_fits { length (all_calls (annotated_in self.strand)) ≤ length ml.old }
        ensures mm_after { mm.new ≡ put (all_text (annotated_in self.entry.strand)) mm.old }
        ensures ml_after { ml.new ≡ put (all_bytes mode (annotated_in self.entry.strand)) ml.old }
    {
        let MethylationAnnotation { pattern, evidence } = self.strand.annotation;
        copy(&mm_prefix(pattern), mm);
        // The outputs by their places: of what is written through `iter_mut` the proof learns nothing.
        let mut place = 4;
        let mut count = 0;
        let mut skip = 0;
        for (i, &base) in self.strand.bases.iter().enumerate() {
            if self.called_at(i) {
                place = write_skip(mm, place, skip);
                ml[count] = ml_of(mode, evidence.unconverted[i], evidence.converted[i]);
                count += 1;
                skip = 0;
            } else if is_tracked(pattern, base) {
                skip += 1;
            }
        }
        mm[place] = b';';
    }
}

// A strand's MM text and ML bytes against the sequence, whose bases are restored already: how many of each are written, or no tag.
// MM has at most 5 bytes and 5 for each position, ML one for each position. Refuses by 7, 8, 12.
// No struct of mode, mm and ml, here and where it is called: who lends mm and ml reads each for itself afterwards, and a struct that lends
// them would need a clause that each slice stays where it was.
pub fn build_mm_ml_tags(
    s: AnnotatedBases<'_>,
    mode: MethylationMode,
    mm: &mut [u8],
    ml: &mut [u8],
) -> Result<Option<TagLengths>, Refusal>
    ensures { TaggedAs mode (annotated_in s.entry) mm.old ml.old mm.new ml.new result }
{
    let n = s.bases.len();
    let evidence = s.annotation.evidence.lengths();
    refuse(
        (MAX_POSITIONS < n) | evidence_too_long(evidence),
        Refusal::TooLong,
    )?;
    refuse(evidence_uneven(n, evidence), Refusal::Ragged)?;
    let evident = EvidentBases { strand: s };
    let Some(needed) = evident.tag_lengths(mode) else {
        return Ok(None);
    };
    refuse(
        (mm.len() < needed.mm) | (ml.len() < needed.ml),
        Refusal::OutputTooShort,
    )?;
    evident.write_mm_ml(mode, mm, ml);
    Ok(Some(needed))
}

// The MM text alone: the ML bytes go to a buffer that has room for any. Refuses by 7, 8, 12.
pub fn build_mm_tag_no_ml(
    s: AnnotatedBases<'_>,
    mode: MethylationMode,
    mm: &mut [u8],
) -> Result<Option<usize>, Refusal>
    ensures { MmTaggedAs mode (annotated_in s.entry) mm.old mm.new result }
{
    // No heap: arrays of the most that is looked at.
    let mut ml = [0; 1024];
    let tags = build_mm_ml_tags(s, mode, mm, &mut ml)?;
    Ok(tags.map(|lengths| lengths.mm))
}
