use sc_base::OutOfMemory;
use sc_fork::Event;
use std::marker::Model;

/// An event in two small numbers, since a parse keeps several for each element.
#[derive(Drop)]
pub struct PackedEvent {
    number: u32,
    /// What is done with the subparser of the number; from 4 on, less 4, the other one of a merge.
    rest: u32,
}

impl Model for PackedEvent {
    ghost use Rattle.sc_fork.specs.declared.event.Event.{Event};
    ghost use Rattle.sc_parse.specs.Packed.{unpacked};

    ghost Value = { Event };

    ghost view = { λ packed. unpacked packed.number packed.rest };
}

impl PackedEvent {
    ghost use Rattle.std.specs.Prelude.{◌≡◌, IfOk};

    /// There is no room for numbers from 2^32 - 4 on: a core with so many takes 32 GB.
    pub fn new(event: Event) -> Result<PackedEvent, OutOfMemory>
        ensures { IfOk result (λ packed. packed ≡ event) }
    {
        let (number, rest) = match event {
            Event::Split(number) => (number, 0),
            Event::Reduce(number) => (number, 1),
            Event::Shift(number) => (number, 2),
            Event::Classify(number) => (number, 3),
            Event::Merge(number, other) => match other.checked_add(4) {
                Some(rest) => (number, rest),
                None => return Err(OutOfMemory),
            },
        };
        match (u32::try_from(number), u32::try_from(rest)) {
            (Ok(number), Ok(rest)) => Ok(PackedEvent { number, rest }),
            _ => Err(OutOfMemory),
        }
    }

    pub fn event(&self) -> Event
        ensures { result ≡ self.now }
    {
        let number = self.number as usize;
        match self.rest as usize {
            0 => Event::Split(number),
            1 => Event::Reduce(number),
            2 => Event::Shift(number),
            3 => Event::Classify(number),
            rest => Event::Merge(number, rest - 4),
        }
    }
}
