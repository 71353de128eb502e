// Answers and choices as numbers, for the entry points that programs link: what a number stands for, and what an answer is as
// numbers. Uses refusals and methylation.
#![tactic(auto)]

ghost use Rattle.std.specs.Prelude.{◌≡◌};
ghost use Rattle.methylation.specs.Choices.{annotation_in, annotation_of, wrong_annotation};
ghost use Rattle.refusals.specs.Refusal.{number_of};
ghost use Rattle.replies.specs.Choices.{annotations_in};
ghost use Rattle.replies.specs.Replies.{not_counted, no_number, bit_reply, count_told, count_reply, number_reply};

use methylation::{ConversionPattern, pattern_of};
use refusals::{Refusal, refuse};

// `refused` is the refusal's number; where it is 0, so many elements are written to each output.
#[repr(C)]
#[derive(Clone, Copy)]
pub struct Count {
    pub refused: u8,
    pub count: usize,
}

// The numbers are those that C sees.
impl From<Refusal> for Count {
    ghost from_gives = { λ refusal reply. reply ≡ not_counted (number_of refusal) };

    fn from(refusal: Refusal) -> Count {
        Count {
            refused: refusal.number(),
            count: 0,
        }
    }
}

// The numbers are those that C sees. Of a refusal told by its number, any number is handed on.
impl From<Result<usize, u8>> for Count {
    ghost from_gives = { λ answer reply. reply ≡ count_told answer };

    fn from(answer: Result<usize, u8>) -> Count {
        match answer {
            Ok(count) => Count { refused: 0, count },
            Err(refused) => Count { refused, count: 0 },
        }
    }
}

impl From<Result<usize, Refusal>> for Count {
    ghost from_gives = { λ answer reply. reply ≡ count_reply answer };

    fn from(answer: Result<usize, Refusal>) -> Count {
        Count::from(answer.map_err(Refusal::number))
    }
}

// `refused` is the refusal's number; where it is 0, the number that was asked for.
#[repr(C)]
#[derive(Clone, Copy)]
pub struct Number {
    pub refused: u8,
    pub number: u32,
}

// The numbers are those that C sees.
impl From<Refusal> for Number {
    ghost from_gives = { λ refusal reply. reply ≡ no_number (number_of refusal) };

    fn from(refusal: Refusal) -> Number {
        Number {
            refused: refusal.number(),
            number: 0,
        }
    }
}

// The numbers are those that C sees.
impl From<Result<u32, Refusal>> for Number {
    ghost from_gives = { λ answer reply. reply ≡ number_reply answer };

    fn from(answer: Result<u32, Refusal>) -> Number {
        match answer {
            Ok(number) => Number { refused: 0, number },
            Err(refusal) => Number::from(refusal),
        }
    }
}

// 1 is yes, and 0 no.
impl From<Result<bool, Refusal>> for Number {
    ghost from_gives = { λ answer reply. reply ≡ bit_reply answer };

    fn from(answer: Result<bool, Refusal>) -> Number {
        Number::from(answer.map(u32::from))
    }
}

// Whether a number stands for no annotation and no absence of one.
// The number is C's, and its test a promise of its own: entries refuse by it (RepliedAs).
pub fn wrong_annotation(number: u8) -> bool
    ensures { result ≡ wrong_annotation number }
{
    2 < number
}

// 0: no annotation; 1: C to T; any other number: G to A.
// The number is C's. Beside annotation_in: it is promised so, of any number, and cannot fail.
pub fn annotation_of(number: u8) -> Option<ConversionPattern>
    ensures { result ≡ annotation_of number }
{
    (number != 0).then(|| pattern_of(number))
}

// The annotation that a number stands for.
pub fn annotation_in(number: u8) -> Result<Option<ConversionPattern>, Refusal>
    ensures { result ≡ annotation_in number }
{
    refuse(wrong_annotation(number), Refusal::Broken)?;
    Ok(annotation_of(number))
}

// Those that two numbers stand for.
pub fn annotations_in(
    a: u8,
    b: u8,
) -> Result<(Option<ConversionPattern>, Option<ConversionPattern>), Refusal>
    ensures { result ≡ annotations_in a b }
{
    Ok((annotation_in(a)?, annotation_in(b)?))
}
