// How far the input has been read, and the fault of a record where it stands.
ghost use Rattle.std.specs.Prelude.{◌≡◌, ◌-◌, ◌≤◌, ◌++◌, length, Ok, Err, MatchResult};
ghost use Rattle.mesh.specs.declared.refusals.Refusal.{Refusal};
ghost use Rattle.description_laws.specs.declared.faults.StackFault.TheVariants.{Stack};
ghost use Rattle.description_laws.specs.declared.records.Record.TheVariants as records;
ghost use Rattle.description_laws.specs.Description.{InRange, sized, spelled, text};
ghost use Rattle.description.specs.Reading.{Fails, extent_of, sets_of};
ghost use Rattle.description.specs.Unread.{Unreadable};

use crate::records::next_record;
use description_laws::{Record, RecordFault, StackFault};
use mesh::{Refusal, Sizes, TurnOrder};

// The whole input, and what of it is not read yet.
#[derive(Clone, Copy)]
pub(crate) struct Cursor<'a> {
    pub(crate) input: &'a [u8],
    pub(crate) rest: &'a [u8],
    ghost within: { length rest.now ≤ length input.now },
}

impl<'a> Cursor<'a> {
    // Where the next record starts.
    fn place(self) -> usize
        ensures { result ≡ length self.entry.input.now - length self.entry.rest.now }
    {
        self.input.len() - self.rest.len()
    }

    // The fault of the next record.
    pub(crate) fn refuse(self, refusal: Refusal) -> StackFault
        ensures { result ≡ Stack refusal (length self.entry.input.now - length self.entry.rest.now) }
    {
        StackFault::Stack {
            refusal,
            place: self.place(),
        }
    }

    // A refusal of the next record becomes its fault. By `refuse` in the closure the proof did not close.
    #[inline(always)]
    pub(crate) fn or_fault<T: Copy>(self, answer: Result<T, Refusal>) -> Result<T, StackFault>
        ensures { MatchResult result (λ x. answer ≡ Ok x) (λ f. (r : Refusal) × (answer ≡ Err r) × (f ≡ Stack r (length self.entry.input.now - length self.entry.rest.now))) }
    {
        let place = self.place();
        answer.map_err(|refusal| StackFault::Stack { refusal, place })
    }

    // The next record, and the input after it.
    #[inline(always)]
    pub(crate) fn next(self) -> Result<(Record, Cursor<'a>), RecordFault>
        ensures { MatchResult result (λ v. (v.1.input.now ≡ self.entry.input.now) × (self.entry.rest.now ≡ spelled v.0 ++ v.1.rest.now) × InRange v.0) (λ f. Unreadable self.entry.rest.now (length self.entry.input.now - length self.entry.rest.now) f) }
    {
        let (record, rest) = next_record(self.rest, self.place())?;
        Ok((
            record,
            Cursor {
                input: self.input,
                rest,
            },
        ))
    }

    // S comes first.
    pub(crate) fn sizes(self) -> Result<(Sizes, Cursor<'a>), StackFault>
        requires { self.input.now ≡ self.rest.now }
        ensures { MatchResult result (λ v. (v.1.input.now ≡ self.entry.input.now) × (self.entry.input.now ≡ text (sized (extent_of v.0)) ++ v.1.rest.now)) (λ x. Fails self.entry.input.now x) }
    {
        let (record, after) = self.next()?;
        let Record::Stack(extent) = record else {
            return Err(self.refuse(Refusal::OutOfPlace));
        };
        // The record layer has refused sizes out of range.
        Ok((Sizes::try_from(extent).unwrap(), after))
    }

    // O comes second.
    pub(crate) fn order(self) -> Result<(TurnOrder, Cursor<'a>), StackFault>
        requires { (s : Sizes) × (self.input.now ≡ text (sized (extent_of s)) ++ self.rest.now) }
        ensures { MatchResult result (λ v. (v.1.input.now ≡ self.entry.input.now) × (self.entry.rest.now ≡ spelled (records.Order (sets_of v.0)) ++ v.1.rest.now)) (λ x. Fails self.entry.input.now x) }
    {
        let (record, after) = self.next()?;
        let Record::Order(sets) = record else {
            return Err(self.refuse(Refusal::OutOfPlace));
        };
        let order = self.or_fault(TurnOrder::try_from(sets))?;
        Ok((order, after))
    }
}
