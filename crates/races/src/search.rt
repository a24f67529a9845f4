//! The first race of a closed graph.
ghost use Rattle.std.specs.Prelude.{◌≡◌, IfOk};
ghost use Rattle.event.specs.Denials.{refusal};
ghost use Rattle.graph.specs.View.{view, of_closed};
ghost use Rattle.relation.specs.Table.{holds};
ghost use Rattle.verdict.specs.Denials.{unread};
ghost use Rattle.races.specs.Races.{FirstRace, OneFirstRace};
ghost use Rattle.races.specs.Partners.{LowestPartner};

use crate::race::{Ordered, Race};
use event::Denial;
use graph::Closed;
use model::Synchronising;
use relation::Relation;
use verdict::lowest_unlinked_read;

/// The first two events that race, by the lower and then by the higher.
#[tactic(auto, using(crate::proofs::Racing::one_first_race))]
pub fn find_race<M: Synchronising>(graph: &Closed, model: &M) -> Result<Option<Race>, Denial>
    ensures denied_exactly_by_an_unlinked_read { refusal result ≡ unread (of_closed graph.now) }
    ensures the_first_race_or_none { IfOk result (FirstRace (of_closed graph.now) (M.Synchronising.hb model.now (of_closed graph.now))) }
    ensures no_other_answer_is_right { OneFirstRace }
{
    let graph = graph.graph();
    if let Some(read) = lowest_unlinked_read(graph) {
        return Err(Denial::Unread(read));
    }
    let mut happens_before = Relation::empty();
    model.lay_happens_before(graph, &mut happens_before);
    let ordered = Ordered {
        graph,
        happens_before: &happens_before,
    };
    Ok(ordered.first_race())
}

impl Ordered<'_> {
    fn first_race(&self) -> Option<Race>
        ensures { FirstRace (view self.now.graph.now) (holds self.now.happens_before.now) result }
    {
        (0..self.graph.events().len()).find_map(|event| {
            let first = event as u8;
            let second = self.lowest_partner(first)?;
            Some(Race { first, second })
        })
    }

    /// The lowest event above `first` that races with it.
    fn lowest_partner(&self, first: u8) -> Option<u8>
        ensures { LowestPartner (view self.now.graph.now) (holds self.now.happens_before.now) first result }
    {
        (first as usize + 1..self.graph.events().len()).find_map(|event| {
            let second = event as u8;
            self.is_race(first, second).then_some(second)
        })
    }
}
