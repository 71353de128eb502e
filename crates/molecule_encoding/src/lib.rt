// The encoding of a molecule, the tray of document 01: thresholds, two strands with their annotations and a read list, as fields
// of the tag-length-value encoding. This crate owns their order, what a strand and a list need, and row 13 for them; values stay parts
// of the caller's bytes. Uses lists, refusals, fields and molecule_fields.
#![tactic(auto)]

ghost use Rattle.std.specs.Prelude.{◌≡◌, ◌≤◌, length};
ghost use Rattle.fields.specs.Encoding.{whole_fields};
ghost use Rattle.molecule_encoding.specs.Format.{follows, place_of, found_at, value_of, strand_read, reads_read, checked, decoded};
ghost use Rattle.molecule_encoding.specs.Places.{span_of, strand_places, after_at, placed};
ghost use Rattle.molecule_encoding.specs.Parts.{found_in, fields_in, value_in, strand_in, reads_in, molecule_in};

mod ordered;

use fields::{FirstField, next_field};
use molecule_fields::{READ, READ_LIST, STRAND_A, STRAND_B, THRESHOLDS, field_fits};
use ordered::OrderedFields;
use refusals::{Refusal, refuse};

// The most bytes of an encoded molecule.
pub const MAX_BYTES: usize = 65536;

// The values of a strand's fields. Qualities and bases have a byte a position, depths and errors two. An annotation has a pattern byte,
// 0 C to T, 1 G to A, then nine bytes a position: the mark, unconverted and converted.
#[derive(Clone, Copy)]
pub struct StrandFields<'a> {
    pub bases: &'a [u8],
    pub quals: &'a [u8],
    pub depths: &'a [u8],
    pub errors: &'a [u8],
    pub annotation: Option<&'a [u8]>,
}

// The parts of a molecule that are there. The reads are a run of whole fields 30, to the end.
#[derive(Clone, Copy)]
pub struct Molecule<'a> {
    pub thresholds: Option<&'a [u8]>,
    pub a: Option<StrandFields<'a>>,
    pub b: Option<StrandFields<'a>>,
    pub reads: Option<&'a [u8]>,
}

// Where a part is in the bytes.
#[derive(Clone, Copy, Debug, PartialEq, Eq)]
pub struct Span {
    pub offset: usize,
    pub length: usize,
}

// Where the values of a strand's fields are.
#[derive(Clone, Copy, Debug, PartialEq, Eq)]
pub struct StrandPlaces {
    pub bases: Span,
    pub quals: Span,
    pub depths: Span,
    pub errors: Span,
    pub annotation: Option<Span>,
}

// Where the parts of a molecule are that are there, for a caller that keeps the bytes and not slices of them.
#[derive(Clone, Copy, Debug, PartialEq, Eq)]
pub struct MoleculePlaces {
    pub thresholds: Option<Span>,
    pub a: Option<StrandPlaces>,
    pub b: Option<StrandPlaces>,
    pub reads: Option<Span>,
}

// A tag comes after another: it is above it, or both are reads.
#[tactic(auto, unfolding(crate::specs::Format::follows))]
fn tag_follows(last: u8, tag: u8) -> bool
    ensures { result ≡ follows last tag }
{
    (last < tag) | ((last == READ) & (tag == READ))
}

// The fields of bytes that are whole fields, in order and each well-formed. Refuses by 13.
fn check_fields(bytes: &[u8]) -> Result<OrderedFields<'_>, Refusal>
    ensures { fields_in result ≡ checked bytes.now }
{
    let mut last = 0;
    let mut rest = bytes;
    // No index is counted up: where a field is depends on those before it.
    while let Some(f) = next_field(rest)? {
        refuse(!(tag_follows(last, f.tag) & field_fits(f)), Refusal::Broken)?;
        last = f.tag;
        rest = f.rest;
    }
    Ok(OrderedFields { bytes })
}

impl<'a> OrderedFields<'a> {
    // The field with a tag. Tags ascend, so that none is looked for past it.
    fn find(self, tag: u8) -> Option<FirstField<'a>>
        ensures { found_in result ≡ found_at self.entry.bytes.now (place_of tag (whole_fields self.entry.bytes.now)) }
    {
        let mut rest = self.bytes;
        // No index is counted up: where a field is depends on those before it.
        while let Ok(Some(f)) = next_field(rest) {
            if f.tag == tag {
                return Some(f);
            }
            if tag < f.tag {
                return None;
            }
            rest = f.rest;
        }
        None
    }

    // The value of the field with a tag.
    fn value(self, tag: u8) -> Option<&'a [u8]>
        ensures { value_in result ≡ value_of tag (whole_fields self.entry.bytes.now) }
    {
        let f = self.find(tag)?;
        Some(f.value)
    }

    // A strand has all of its first four fields or none, and an annotation only with them.
    fn strand(self, first: u8) -> Result<Option<StrandFields<'a>>, Refusal>
        requires { first ≤ 0x20 }
        ensures { strand_in result ≡ strand_read first (whole_fields self.entry.bytes.now) }
    {
        let bases = self.value(first);
        let quals = self.value(first + 1);
        let depths = self.value(first + 2);
        let errors = self.value(first + 3);
        let annotation = self.value(first + 4);
        match (bases, quals, depths, errors, annotation) {
            (Some(bases), Some(quals), Some(depths), Some(errors), annotation) => {
                Ok(Some(StrandFields {
                    bases,
                    quals,
                    depths,
                    errors,
                    annotation,
                }))
            }
            (None, None, None, None, None) => Ok(None),
            _ => Err(Refusal::Broken),
        }
    }

    // All that stands after the list's marker. Reads stand only there.
    fn reads(self) -> Result<Option<&'a [u8]>, Refusal>
        ensures { reads_in result ≡ reads_read self.entry.bytes.now }
    {
        match self.find(READ_LIST) {
            Some(marker) => Ok(Some(marker.rest)),
            None => {
                refuse(self.find(READ).is_some(), Refusal::Broken)?;
                Ok(None)
            }
        }
    }

    // Where the value of the field with a tag is.
    fn place(self, tag: u8) -> Option<Span>
        ensures { result ≡ span_of tag (whole_fields self.entry.bytes.now) }
    {
        let f = self.find(tag)?;
        let length = f.value.len();
        let end = self.bytes.len() - f.rest.len();
        Some(Span {
            offset: end - length,
            length,
        })
    }

    // Where a strand's values are.
    fn strand_places(self, first: u8) -> Option<StrandPlaces>
        requires { first ≤ 0x20 }
        ensures { result ≡ strand_places first (whole_fields self.entry.bytes.now) }
    {
        let bases = self.place(first);
        let quals = self.place(first + 1);
        let depths = self.place(first + 2);
        let errors = self.place(first + 3);
        let annotation = self.place(first + 4);
        match (bases, quals, depths, errors) {
            (Some(bases), Some(quals), Some(depths), Some(errors)) => Some(StrandPlaces {
                bases,
                quals,
                depths,
                errors,
                annotation,
            }),
            _ => None,
        }
    }

    // Where all is that stands after the list's marker.
    fn reads_place(self) -> Option<Span>
        ensures { result ≡ after_at (length self.entry.bytes.now) (place_of 0x2f (whole_fields self.entry.bytes.now)) }
    {
        let marker = self.find(READ_LIST)?;
        let length = marker.rest.len();
        Some(Span {
            offset: self.bytes.len() - length,
            length,
        })
    }
}

// The molecule that the bytes encode. Refuses by 13.
pub fn read_molecule(bytes: &[u8]) -> Result<Molecule<'_>, Refusal>
    ensures { molecule_in result ≡ decoded bytes.now }
{
    refuse(MAX_BYTES < bytes.len(), Refusal::Broken)?;
    let fields = check_fields(bytes)?;
    let thresholds = fields.value(THRESHOLDS);
    let a = fields.strand(STRAND_A)?;
    let b = fields.strand(STRAND_B)?;
    let reads = fields.reads()?;
    Ok(Molecule {
        thresholds,
        a,
        b,
        reads,
    })
}

// Where the parts of the molecule are that the bytes encode: `read_molecule` answers what stands there. Refuses by 13.
pub fn molecule_places(bytes: &[u8]) -> Result<MoleculePlaces, Refusal>
    ensures { result ≡ placed bytes.now }
{
    read_molecule(bytes)?;
    let fields = OrderedFields { bytes };
    Ok(MoleculePlaces {
        thresholds: fields.place(THRESHOLDS),
        a: fields.strand_places(STRAND_A),
        b: fields.strand_places(STRAND_B),
        reads: fields.reads_place(),
    })
}
