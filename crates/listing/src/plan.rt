// The lines of a plan.
ghost use Rattle.std.specs.Prelude.{◌≡◌, ℕ, ◌-◌, ◌*◌, ◌<◌, ◌≤◌, List, length, Err, slice_set};
ghost use Rattle.std.specs.List.{flat_map};
ghost use Rattle.mesh.specs.declared.refusals.Refusal.TheVariants.{ShortBuffer};
ghost use Rattle.listing.specs.Listed.{Listed, over};
ghost use Rattle.listing.specs.Made.{number};
ghost use Rattle.listing.specs.Text.{hex_digit, line, lines, plan_text};

use mesh::{Refusal, Sizes};

// The bytes of a text for each location byte: two digits, and the space or the newline after them.
const EACH: usize = 3;

// The text of the largest plan, 24 by 24 by 8 routers; that of a fault is shorter.
pub const LONGEST: usize = 13_824;

fn hex_digit(half: u8) -> u8
    requires { half < 16 }
    ensures { result ≡ hex_digit half }
{
    if half < 10 {
        b'0' + half
    } else {
        b'a' + (half - 10)
    }
}

// A byte as two digits, and the space after them.
fn number(byte: u8) -> [u8; EACH]
    ensures { result ≡ number byte }
{
    [hex_digit(byte / 16), hex_digit(byte % 16), b' ']
}

// Fills `out` with the numbers of a row, a space after each. A newline for the last space makes it a line. By index:
// a proof learns nothing of the bytes that are written through `chunks_exact_mut`.
fn write_numbers(row: &[u8], out: &mut [u8])
    requires some { 0 < length row.now }
    requires room { length row.now * 3 ≡ length out.old }
    ensures numbers { out.new ≡ flat_map number row.now }
    ensures ended { slice_set out.new (length row.now * 3 - 1) 10 ≡ line row.now }
{
    for (i, byte) in row.iter().enumerate() {
        let at = i * EACH;
        out[at..at + EACH].copy_from_slice(&number(*byte));
    }
}

// Fills `out` with a row as a line.
fn write_row(row: &[u8], out: &mut [u8])
    requires some { 0 < length row.now }
    requires room { length row.now * 3 ≡ length out.old }
    ensures { out.new ≡ line row.now }
{
    write_numbers(row, out);
    out[row.len() * EACH - 1] = b'\n';
}

// Writes `rows` rows of `width` bytes as lines over the front of `out`, by index too.
#[tactic(auto, using(crate::proofs::Rows::row_within))]
fn write_rows(width: usize, rows: usize, bytes: &[u8], out: &mut [u8])
    requires some { 0 < width }
    requires whole { rows * width ≤ length bytes.now }
    requires room { rows * width * 3 ≤ length out.old }
    ensures { out.new ≡ over (lines width rows bytes.now) out.old }
{
    for row in 0..rows {
        let start = row * width;
        let end = start + width;
        write_row(&bytes[start..end], &mut out[start * EACH..end * EACH]);
    }
}

// The rows of all planes.
fn rows(sizes: Sizes) -> usize
    ensures { result ≡ sizes.planes * sizes.height }
{
    usize::from(sizes.planes) * usize::from(sizes.height)
}

// Writes the text of a plan over the front of `out`.
fn write_plan(sizes: Sizes, bytes: &[u8], out: &mut [u8])
    requires whole { sizes.planes * (sizes.width * sizes.height) ≤ length bytes.now }
    requires room { length (plan_text sizes bytes.now) ≤ length out.old }
    ensures { out.new ≡ over (plan_text sizes bytes.now) out.old }
{
    write_rows(usize::from(sizes.width), rows(sizes), bytes, out);
}

// The length of the text of any plan of these sizes.
#[tactic(auto, using(crate::proofs::Rows::length_plan))]
fn plan_size(sizes: Sizes) -> usize
    ensures { (bytes : List ℕ) → sizes.planes * (sizes.width * sizes.height) ≤ length bytes → length (plan_text sizes bytes) ≡ result }
{
    sizes.routers() * EACH
}

// Lists the location bytes of a plan, a line to each row of a plane, planes and rows rising. The reply is the number
// of bytes written at the front of `out`, which is the caller's, as there is no heap; what lies beyond them stays. Refused, with `out` as it was, where there are
// fewer bytes than routers or the text does not fit.
pub fn list_plan(sizes: Sizes, bytes: &[u8], out: &mut [u8]) -> Result<usize, Refusal>
    ensures few { length bytes.now < sizes.planes * (sizes.width * sizes.height) → (result ≡ Err ShortBuffer) × (out.new ≡ out.old) }
    ensures listed { sizes.planes * (sizes.width * sizes.height) ≤ length bytes.now → Listed (plan_text sizes bytes.now) out.old out.new result }
{
    let size = plan_size(sizes);
    if bytes.len() < sizes.routers() || out.len() < size {
        return Err(Refusal::ShortBuffer);
    }
    write_plan(sizes, bytes, out);
    Ok(size)
}
