//! Recording an event.

ghost use Rattle.std.specs.Prelude.{◌≡◌, nat_lt, length, None, Some, IfOk, MatchResult};
ghost use Rattle.event.specs.declared.denial.Denial.TheVariants.{Full};
ghost use Rattle.event.specs.Denials.{refusal, unless};
ghost use Rattle.event.specs.Labels.{labelled};
ghost use Rattle.execution.specs.Entries.{denial, step, record_event};
ghost use Rattle.graph.specs.View.{view};

use crate::tables::Graph;
use event::{Arguments, Denial, Event, Kind, Label};

impl Graph {
    /// The event that the arguments tell of, if none of them is at fault.
    fn parse(&self, kind: Kind, x: Arguments) -> Result<Event, Denial>
        ensures that_event_or_the_first_test_that_fails { MatchResult result (λ e. (e.thread ≡ x.thread) × (e.label ≡ labelled kind x) × (denial (view self.now) (record_event kind x) ≡ unless (nat_lt (length (view self.now).events) 256) Full None)) (λ d. denial (view self.now) (record_event kind x) ≡ Some d) }
    {
        if x.thread < 1 || x.thread > u32::from(self.threads) {
            return Err(Denial::Range(1));
        }
        if kind.accesses() && x.location >= u32::from(self.locations) {
            return Err(Denial::Range(2));
        }
        let mode = kind.mode(x.mode)?;
        let label = match kind {
            Kind::Read => Label::Read {
                location: x.location as u8,
                value: x.read,
                mode,
            },
            Kind::Write => Label::Write {
                location: x.location as u8,
                value: x.written,
                mode,
            },
            Kind::Update => Label::Update {
                location: x.location as u8,
                read: x.read,
                written: x.written,
                mode,
            },
            Kind::Fence => Label::Fence { mode },
        };
        Ok(Event {
            thread: x.thread as u8,
            label,
        })
    }

    /// Appends an event, and answers its number.
    pub(crate) fn record(&mut self, kind: Kind, x: Arguments) -> Result<u8, Denial>
        ensures denied_exactly_in_its_cases { refusal result ≡ denial (view self.old) (record_event kind x) }
        ensures one_step { view self.new ≡ step (view self.old) (record_event kind x) }
        ensures answers_the_next_number { IfOk result (λ n. n ≡ length (view self.old).events) }
    {
        let event = self.parse(kind, x)?;
        let number = self.events.len();
        self.events.push(event).map_err(|_| Denial::Full)?;
        self.sources.push(None).unwrap();
        Ok(number as u8)
    }
}
