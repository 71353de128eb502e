// One field of the tag-length-value encoding of document 01's tray: a tag byte, the value's length in two bytes, low byte first,
// and the value. What tags and values mean is for the crates above. Uses lists, refusals and byte_numbers.
#![tactic(auto)]

ghost use Rattle.std.specs.Prelude.{◌≡◌};
ghost use Rattle.fields.specs.Encoding.{front, begins_with};
ghost use Rattle.fields.specs.Slices.{begins_in};

use refusals::Refusal;

// The field that some bytes begin with: its tag, its value, and the bytes after it.
#[derive(Clone, Copy)]
pub struct FirstField<'a> {
    pub tag: u8,
    pub value: &'a [u8],
    pub rest: &'a [u8],
}

// The field that some bytes begin with, or none where there are no bytes. Refuses by 13 where there are some, and no whole field.
#[tactic(auto, unfolding(crate::specs::Encoding::front), using(byte_numbers::proofs::Bytes::word_le))]
pub fn next_field(bytes: &[u8]) -> Result<Option<FirstField<'_>>, Refusal>
    ensures { begins_in result ≡ begins_with (front bytes.now) }
{
    match bytes {
        [] => Ok(None),
        [tag, low, high, after @ ..] => {
            let length = usize::from(u16::from_le_bytes([*low, *high]));
            if after.len() < length {
                return Err(Refusal::Broken);
            }
            let (value, rest) = after.split_at(length);
            Ok(Some(FirstField {
                tag: *tag,
                value,
                rest,
            }))
        }
        _ => Err(Refusal::Broken),
    }
}
