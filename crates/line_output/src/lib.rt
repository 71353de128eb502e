// A writer of texts to a lent output: each of its methods writes as much of a text as there is room for. Uses lists, decimal and hexadecimal.
// By hand, not by Display: a text is cut where the output ends, and what a `write!` that fails has written no clause says.
#![tactic(auto)]

ghost use Rattle.std.specs.Prelude.{◌≡◌, ◌*◌, ◌≤◌, length, take};
ghost use Rattle.lists.specs.Output.{put};
ghost use Rattle.decimal.specs.Decimal.{decimal};
ghost use Rattle.hexadecimal.specs.Hexadecimal.{hexadecimal};
ghost use Rattle.line_output.specs.Text.{comma_list, item, visible, printed};

use decimal::write_decimal;
use hexadecimal::write_hexadecimal;
use lists::copy;

// An output, and the place in it where the next text starts: what stands before that stays.
// A function that is lent a writer leaves the output where it is (specs/Writer.antt).
#[derive(Drop)]
pub struct Writer<'a> {
    pub out: &'a mut [u8],
    pub at: usize,
    pub ghost inside: { at ≤ length out.now },
}

impl<'a> Writer<'a> {
    ghost use Rattle.std.specs.Prelude.{min};
    ghost use Rattle.line_output.specs.Writer.{Writes, WritesBy};

    // From a place of an output on. From a place past the end nothing is written.
    pub fn new(out: &'a mut [u8], at: usize) -> Writer<'a>
        ensures same_reference { result.out.ghost_name ≡ out.entry.ghost_name }
        ensures out_same { result.out.now ≡ out.old }
        ensures at { result.at ≡ min (length out.old) at }
    {
        let at = out.len().min(at);
        Writer { out, at }
    }

    // What a function writes to the front of an output, from the place on. It answers how long its text is, whatever the room.
    fn write_by<F: FnOnce(&mut [u8]) -> usize>(&mut self, write: F)
        requires { F.IsAlwaysCallable write }
        ensures { WritesBy F.FnOnce write self.old self.new }
    {
        let room = &mut self.out[self.at..];
        let most = room.len();
        self.at += most.min(write(room));
    }

    // A text as it is.
    pub fn write_text(&mut self, text: &[u8])
        ensures { Writes text.now self.old self.new }
    {
        self.write_by(|out| {
            copy(text, out);
            text.len()
        });
    }

    // A number in decimal.
    pub fn write_number(&mut self, n: u64)
        ensures { Writes (decimal n) self.old self.new }
    {
        self.write_by(|out| write_decimal(n, out));
    }

    // A 32-bit number in hexadecimal.
    pub fn write_bits(&mut self, n: u32)
        ensures { Writes (hexadecimal n) self.old self.new }
    {
        self.write_by(|out| write_hexadecimal(n, out));
    }

    // Bytes as they are printed.
    pub fn write_printed(&mut self, bytes: &[u8])
        ensures { Writes (printed bytes.now) self.old self.new }
    {
        self.write_by(|out| print_bytes(bytes, out));
    }

    // The number at a place of a list: in decimal, behind a comma unless it is the first.
    fn write_item(&mut self, place: usize, n: u64)
        ensures { Writes (item place n) self.old self.new }
    {
        if place != 0 {
            self.write_text(b",");
        }
        self.write_number(n);
    }

    // Numbers in decimal with commas: of 8 bits, so at most 4 bytes for each.
    // Not one function for both: the bound on the text is another for each width, so a trait would have to state it beside the number, with an
    // impl for each width, and each caller to read its numbers through the trait: longer than the second function.
    pub fn write_u8s(&mut self, numbers: &[u8])
        ensures written { Writes (comma_list numbers.now) self.old self.new }
        ensures numbers_len_bound { length (comma_list numbers.now) ≤ 4 * length numbers.now }
    {
        for (i, &number) in numbers.iter().enumerate() {
            self.write_item(i, u64::from(number));
        }
    }

    // The same of 16 bits, so at most 6 bytes for each.
    pub fn write_u16s(&mut self, numbers: &[u16])
        ensures written { Writes (comma_list numbers.now) self.old self.new }
        ensures numbers_len_bound { length (comma_list numbers.now) ≤ 6 * length numbers.now }
    {
        for (i, &number) in numbers.iter().enumerate() {
            self.write_item(i, u64::from(number));
        }
    }
}

// A byte as it is printed.
#[tactic(auto, unfolding(crate::specs::Text::visible))]
fn visible_byte(b: u8) -> u8
    ensures { result ≡ visible b }
{
    if b.is_ascii_graphic() { b } else { b'?' }
}

// Writes as many bytes as there is room for to the front of out, as they are printed, and answers how many there are.
#[tactic(auto, using(crate::proofs::Text::length_printed))]
fn print_bytes(bytes: &[u8], out: &mut [u8]) -> usize
    ensures value { result ≡ length (printed bytes.now) }
    ensures out_after { out.new ≡ put (take (length out.old) (printed bytes.now)) out.old }
{
    let n = out.len().min(bytes.len());
    // By index: of what is written through bytes.iter().zip(out.iter_mut()) the proof learns no byte (tried).
    for i in 0..n {
        out[i] = visible_byte(bytes[i]);
    }
    bytes.len()
}
