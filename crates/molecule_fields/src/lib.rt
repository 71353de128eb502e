// A field of an encoded molecule by itself, the tray of document 01: its tag, the widths of its value, an annotation's pattern
// and marks, and what a read is. Uses lists, byte_numbers and fields.
#![tactic(auto)]

ghost use Rattle.std.specs.Prelude.{◌≡◌, length};
ghost use Rattle.lists.specs.Every.{every, among};
ghost use Rattle.fields.specs.Slices.{field_in};
ghost use Rattle.molecule_fields.specs.Widths.{annotation_tags, known_tag, read_field, length_fits, is_bit, marks, bits_fit, well_formed, flags_of};

use byte_numbers::LittleEndian;
use fields::FirstField;
use lists::get_or;

// The tags of the format. A strand has five, one after another: bases, qualities, depths, errors, annotation.
// Numbers and no enum: fields stand in the order of their tags, a strand's are counted from its first, and all others are refused.
pub const THRESHOLDS: u8 = 0x01;

pub const STRAND_A: u8 = 0x10;

const DEPTHS_A: u8 = 0x12;

const ERRORS_A: u8 = 0x13;

const ANNOTATION_A: u8 = 0x14;

pub const STRAND_B: u8 = 0x20;

const DEPTHS_B: u8 = 0x22;

const ERRORS_B: u8 = 0x23;

const ANNOTATION_B: u8 = 0x24;

pub const READ_LIST: u8 = 0x2f;

pub const READ: u8 = 0x30;

#[tactic(auto, unfolding(crate::specs::Widths::known_tag))]
fn known_tag(tag: u8) -> bool
    ensures { result ≡ known_tag tag }
{
    matches!(tag, THRESHOLDS | STRAND_A..=ANNOTATION_A | STRAND_B..=ANNOTATION_B | READ_LIST | READ)
}

fn is_annotation(tag: u8) -> bool
    ensures { result ≡ among tag annotation_tags }
{
    matches!(tag, ANNOTATION_A | ANNOTATION_B)
}

// Whether a field is a read. By its tag and how long its value is, not the field: who has these alone can ask.
pub fn is_read(tag: u8, n: usize) -> bool
    ensures { result ≡ read_field tag n }
{
    (tag == READ) & (2 <= n)
}

// Whether the length of a field's value fits the widths of its tag's.
#[tactic(auto, unfolding(crate::specs::Widths::length_fits))]
fn length_fits(f: FirstField) -> bool
    ensures { result ≡ length_fits f.entry.tag (length f.entry.value.now) }
{
    let n = f.value.len();
    match f.tag {
        THRESHOLDS => n % 4 == 0,
        DEPTHS_A | ERRORS_A | DEPTHS_B | ERRORS_B => n % 2 == 0,
        ANNOTATION_A | ANNOTATION_B => n % 9 == 1,
        READ_LIST => n == 0,
        READ => 2 <= n,
        _ => true,
    }
}

fn marks_fit(value: &[u8]) -> bool
    ensures { result ≡ every is_bit (marks value.now) }
{
    // By place and not by groups of nine after the pattern: of a value that does not fit its width the last mark may stand in a
    // shorter group.
    (0..value.len() / 9).all(|i| value[9 * i + 1] <= 1)
}

#[tactic(auto, unfolding(crate::specs::Widths::bits_fit))]
fn bits_fit(f: FirstField) -> bool
    ensures { result ≡ bits_fit (field_in f.entry) }
{
    !is_annotation(f.tag) || (get_or(f.value, 0, 0) <= 1 && marks_fit(f.value))
}

// Whether a field has a tag of the format and a value that fits it. What follows the field is not looked at.
#[tactic(auto, unfolding(crate::specs::Widths::well_formed))]
pub fn field_fits(f: FirstField) -> bool
    ensures { result ≡ well_formed (field_in f.entry) }
{
    known_tag(f.tag) && length_fits(f) && bits_fit(f)
}

// The flags of a field that is a read. Of the field only the value is looked at.
#[tactic(auto, unfolding(crate::specs::Widths::flags_of), using(byte_numbers::proofs::Bytes::two_le, byte_numbers::proofs::Bytes::word_le))]
pub fn read_flags(f: FirstField) -> u16
    ensures { result ≡ flags_of (field_in f.entry) }
{
    u16::from_bytes(f.value)
}
