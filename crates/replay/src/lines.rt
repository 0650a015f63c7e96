// One line of a script, from its words. The lines come in this order, the links and the calls any number of times:
//   stack W H K
//   order N E S W
//   link X Y GAP
//   plan md-safe|random-offline|optimistic first|last|register HEX
//   inject SX SY SZ DX DY DZ TAG, or move X Y Z BUFFER PORT, or collect X Y Z BUFFER
ghost use Rattle.std.specs.Prelude.{◌≡◌};
ghost use Rattle.replay.specs.Calls.{collect_from, inject_from, link_from, move_from, order_from, stack_from};

use crate::faults::Reason;
use channel_laws::Call;
use description_laws::{Extent, SetNumbers};
use mesh::{Link, Router};
use std::str::FromStr;

// How location bytes are filled, as a script names it: its turn order is known only once the description is read.
#[derive(Clone, Copy)]
pub(crate) enum Scheme {
    MdSafe,
    RandomOffline,
    Optimistic,
}

// How ties are settled, as a script names it: a register of zero is refused only when the stack is planned.
#[derive(Clone, Copy)]
pub(crate) enum Tie {
    First,
    Last,
    Register(u16),
}

#[derive(Clone, Copy)]
pub(crate) struct Planning {
    pub(crate) scheme: Scheme,
    pub(crate) tie: Tie,
}

// What one line says.
#[derive(Clone, Copy)]
pub(crate) enum Line {
    Stack(Extent),
    Order(SetNumbers),
    Link(Link),
    Plan(Planning),
    Call(Call),
}

// A decimal number that fits the 32 bits of a tag. No sign stands before it.
fn parse_number(word: &str) -> Result<u32, Reason> {
    if word.starts_with('+') {
        return Err(Reason::NotNumber);
    }
    Ok(word.parse::<u32>()?)
}

fn parse_byte(word: &str) -> Result<u8, Reason> {
    Ok(u8::try_from(parse_number(word)?)?)
}

// As many bytes as are asked for, a word to each. A loop: tried with an array's `try_map`: the proof did not close.
fn parse_bytes<const N: usize>(words: &[&str]) -> Result<[u8; N], Reason> {
    if words.len() != N {
        return Err(Reason::WordCount);
    }
    let mut values = [0; N];
    for (value, word) in values.iter_mut().zip(words.iter()) {
        *value = parse_byte(*word)?;
    }
    Ok(values)
}

// The state of a register: one to four hexadecimal digits.
fn parse_state(word: &str) -> Result<u16, Reason> {
    if word.len() > 4 || word.starts_with('+') {
        return Err(Reason::NotRegister);
    }
    u16::from_str_radix(word, 16).map_err(|_| Reason::NotRegister)
}

// The fields of each line from its numbers, in the order in which they are written: it is the script's order, so no
// `From` of the types says it.
fn stack_from(numbers: [u8; 3]) -> Extent
    ensures { result ≡ stack_from numbers }
{
    let [width, height, planes] = numbers;
    Extent {
        width,
        height,
        planes,
    }
}

fn order_from(numbers: [u8; 4]) -> SetNumbers
    ensures { result ≡ order_from numbers }
{
    let [north, east, south, west] = numbers;
    SetNumbers {
        north,
        east,
        south,
        west,
    }
}

fn link_from(numbers: [u8; 3]) -> Link
    ensures { result ≡ link_from numbers }
{
    let [x, y, gap] = numbers;
    Link { x, y, gap }
}

fn inject_from(numbers: [u8; 6], tag: u32) -> Call
    ensures { result ≡ inject_from numbers tag }
{
    let [x, y, z, to_x, to_y, to_z] = numbers;
    Call::Inject {
        source: Router { x, y, z },
        destination: Router {
            x: to_x,
            y: to_y,
            z: to_z,
        },
        tag,
    }
}

fn move_from(numbers: [u8; 5]) -> Call
    ensures { result ≡ move_from numbers }
{
    let [x, y, z, buffer, port] = numbers;
    let router = Router { x, y, z };
    Call::Move {
        router,
        buffer,
        port,
    }
}

fn collect_from(numbers: [u8; 4]) -> Call
    ensures { result ≡ collect_from numbers }
{
    let [x, y, z, buffer] = numbers;
    let router = Router { x, y, z };
    Call::Collect { router, buffer }
}

impl FromStr for Scheme {
    type Err = Reason;

    fn from_str(word: &str) -> Result<Scheme, Reason> {
        match word {
            "md-safe" => Ok(Scheme::MdSafe),
            "random-offline" => Ok(Scheme::RandomOffline),
            "optimistic" => Ok(Scheme::Optimistic),
            _ => Err(Reason::UnknownWord),
        }
    }
}

fn parse_tie(words: &[&str]) -> Result<Tie, Reason> {
    match words {
        ["first"] => Ok(Tie::First),
        ["last"] => Ok(Tie::Last),
        ["register", word] => Ok(Tie::Register(parse_state(*word)?)),
        ["first" | "last" | "register", ..] | [] => Err(Reason::WordCount),
        _ => Err(Reason::UnknownWord),
    }
}

fn parse_planning(words: &[&str]) -> Result<Planning, Reason> {
    let [filler, chooser @ ..] = words else {
        return Err(Reason::WordCount);
    };
    Ok(Planning {
        scheme: filler.parse::<Scheme>()?,
        tie: parse_tie(chooser)?,
    })
}

fn parse_inject(words: &[&str]) -> Result<Call, Reason> {
    let [routers @ .., tag] = words else {
        return Err(Reason::WordCount);
    };
    let numbers = parse_bytes::<6>(routers)?;
    Ok(inject_from(numbers, parse_number(*tag)?))
}

// A line by its first word and the others.
pub(crate) fn parse_line(first: &str, others: &[&str]) -> Result<Line, Reason> {
    match first {
        "stack" => Ok(Line::Stack(stack_from(parse_bytes::<3>(others)?))),
        "order" => Ok(Line::Order(order_from(parse_bytes::<4>(others)?))),
        "link" => Ok(Line::Link(link_from(parse_bytes::<3>(others)?))),
        "plan" => Ok(Line::Plan(parse_planning(others)?)),
        "inject" => Ok(Line::Call(parse_inject(others)?)),
        "move" => Ok(Line::Call(move_from(parse_bytes::<5>(others)?))),
        "collect" => Ok(Line::Call(collect_from(parse_bytes::<4>(others)?))),
        _ => Err(Reason::UnknownWord),
    }
}
