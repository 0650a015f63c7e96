// The line of a fault.
ghost use Rattle.std.specs.Prelude.{◌≡◌};
ghost use Rattle.listing.specs.Listed.{Listed};
ghost use Rattle.listing.specs.Text.{fault_text, word};

use arrayvec::ArrayString;
use description_laws::{Layer, StackFault};
use itoa::Buffer;
use mesh::Refusal;

// The longest line that a fault has: a word of six letters, a number of three digits, a place of twenty,
// two spaces and the newline.
const ROOM: usize = 32;

// Not a `Display`: `write!` may fail by its contract.
fn word(layer: Layer) -> &'static str
    ensures { result.now ≡ word layer }
{
    match layer {
        Layer::Byte => "byte",
        Layer::Record => "record",
        Layer::Stack => "stack",
    }
}

// The line, made before it is known whether it fits the caller's buffer. Not by `write!`, whose contract leaves open
// that it fails.
fn fault_line(fault: StackFault) -> ArrayString<ROOM>
    ensures { result.bytes ≡ fault_text fault }
{
    let mut digits = Buffer::new();
    let mut line = ArrayString::new();
    line.push_str(word(fault.layer()));
    line.push_str(" ");
    line.push_str(digits.format(fault.refusal().number()));
    line.push_str(" ");
    line.push_str(digits.format(fault.place()));
    line.push_str("\n");
    line
}

// Lists a fault as one line: the word of its layer, its refusal's number and its place. The reply is the number
// of bytes written at the front of `out`; what lies beyond them stays. Refused, with `out` as it was, where the line
// does not fit.
pub fn list_fault(fault: StackFault, out: &mut [u8]) -> Result<usize, Refusal>
    ensures listed { Listed (fault_text fault) out.old out.new result }
{
    let line = fault_line(fault);
    let text = line.as_str().as_bytes();
    if out.len() < text.len() {
        return Err(Refusal::ShortBuffer);
    }
    out[..text.len()].copy_from_slice(text);
    Ok(text.len())
}
