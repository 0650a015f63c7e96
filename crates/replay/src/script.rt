// The script: lines of words, put together into a description of the stack, the way it is planned, and the calls.
ghost use Rattle.std.specs.Prelude.{◌≡◌, [], ◌∷◌, OnOk};
ghost use Rattle.description_laws.specs.Description.{spelled};
ghost use Rattle.replay.specs.Scripts.{Added, Grown};

use crate::faults::{Fault, Reason};
use crate::lines::{Line, Planning, parse_line};
use channel_laws::Call;
use description_laws::Record;
use std::alloc::Global;
use std::str::from_utf8;

// A whole script. The description is spelled in bytes, as the reader takes it.
#[derive(Drop)]
pub(crate) struct Script {
    pub(crate) description: Vec<u8>,
    pub(crate) planning: Planning,
    pub(crate) calls: Vec<Call>,
}

// Which lines may come next: `add` shows all of them in one match.
#[derive(Clone, Copy)]
enum Stage {
    Stack,
    Order,
    Links,
    Calls(Planning),
}

// A script under way.
#[derive(Drop)]
struct Draft {
    stage: Stage,
    description: Vec<u8>,
    calls: Vec<Call>,
}

impl Draft {
    fn new(heap: Global) -> Draft {
        Draft {
            stage: Stage::Stack,
            description: Vec::new(heap),
            calls: Vec::new(heap),
        }
    }

    // Spells a record of the description, as the reader takes it. `next` is what may come after it.
    fn spell(&mut self, record: Record, next: Stage) -> Result<(), Reason>
        ensures { OnOk result (Grown self.old self.new «next» (spelled «record») []) }
    {
        let text = &mut self.description;
        match record {
            Record::Stack(e) => text.extend_from_slice(&[b'S', e.width, e.height, e.planes])?,
            Record::Order(s) => text.extend_from_slice(&[b'O', s.north, s.east, s.south, s.west])?,
            Record::Pillar(l) => text.extend_from_slice(&[b'L', l.x, l.y, l.gap])?,
            Record::End => text.extend_from_slice(b"Z")?,
        }
        self.stage = next;
        Ok(())
    }

    fn call(&mut self, call: Call) -> Result<(), Reason>
        ensures { OnOk result (Grown self.old self.new self.old.stage [] (call ∷ [])) }
    {
        self.calls.push(call)?;
        Ok(())
    }

    // Each line in its turn.
    fn add(&mut self, line: Line) -> Result<(), Reason>
        ensures { OnOk result (Added self.old line self.new) }
    {
        match (self.stage, line) {
            (Stage::Stack, Line::Stack(extent)) => self.spell(Record::Stack(extent), Stage::Order),
            (Stage::Order, Line::Order(sets)) => self.spell(Record::Order(sets), Stage::Links),
            (Stage::Links, Line::Link(link)) => self.spell(Record::Pillar(link), Stage::Links),
            (Stage::Links, Line::Plan(planning)) => self.spell(Record::End, Stage::Calls(planning)),
            (Stage::Calls(_), Line::Call(call)) => self.call(call),
            _ => Err(Reason::OutOfOrder),
        }
    }

    // Takes a line of text. What follows a '#' is a comment, and a line without words passes.
    fn take_line(&mut self, heap: Global, text: &str) -> Result<(), Reason> {
        let said = text.split_once('#').map_or(text, |(said, _)| said);
        let words = said.split_ascii_whitespace().collect::<Vec<&str>>(heap)?;
        match words.as_slice() {
            [first, others @ ..] => self.add(parse_line(*first, others)?),
            [] => Ok(()),
        }
    }

    fn finish(self) -> Result<Script, Reason> {
        match self.stage {
            Stage::Stack => Err(Reason::NoStack),
            Stage::Order => Err(Reason::NoOrder),
            Stage::Links => Err(Reason::NoPlan),
            Stage::Calls(planning) => Ok(Script {
                description: self.description,
                planning,
                calls: self.calls,
            }),
        }
    }
}

// Reads lines of text. A line that is missing at the end is asked for after the last one.
fn parse_text(heap: Global, text: &str) -> Result<Script, Fault> {
    let mut draft = Draft::new(heap);
    for (i, line) in text.lines().enumerate() {
        draft
            .take_line(heap, line)
            .map_err(|reason| reason.after(i))?;
    }
    draft
        .finish()
        .map_err(|reason| reason.after(text.lines().count()))
}

fn count_newlines(bytes: &[u8]) -> usize {
    bytes.iter().filter(|byte| **byte == b'\n').count()
}

// Reads a script, up to the first line that is not understood. Input that is not text is refused before any line is
// read.
pub(crate) fn parse(heap: Global, input: &[u8]) -> Result<Script, Fault> {
    let text = from_utf8(input).map_err(|error| {
        let before = input.get(0..error.valid_up_to()).unwrap_or(input);
        Reason::NotText.after(count_newlines(before))
    })?;
    parse_text(heap, text)
}
