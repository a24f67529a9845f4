//! Closing a relation under steps.
ghost use Rattle.std.specs.Prelude.{ℕ, Decides};
ghost use Rattle.event_set.specs.Sets.{has};
ghost use Rattle.relation.specs.Table.{holds};
ghost use Rattle.cycles.specs.Steps.{Plus, Closure, ClosedAbove};

use crate::table::Relation;
use event_set::EventSet;

impl Relation {
    /// Adds every pair that one or more steps join. Most steps lead to higher numbers, so the highest row is closed first.
    pub fn close(&mut self)
        ensures holds_just_what_one_or_more_steps_join { Closure (holds self.old) (holds self.new) }
    {
        // Not `0..=u8::MAX`: it ends by a last step of its own, which each proof would have to tell again.
        for a in (0..256usize).rev() {
            let reached = self.reached(a as u8);
            self.join_row(a as u8, &reached);
        }
    }

    /// The events that one or more steps lead to from `a`, where the rows above `a` are closed:
    /// what such a row leads to, it has itself, so that nothing of it need be walked.
    fn reached(&self, a: u8) -> EventSet
        requires { ClosedAbove (holds self.now) a }
        ensures { (y : ℕ) → Decides (has result y) (Plus (holds self.now) a y) }
    {
        let mut reached = self.row(a);
        let mut ahead = reached;
        // No `for`: `ahead` changes as it is walked.
        while let Some(m) = ahead.next() {
            let mut row = self.row(m);
            if m > a {
                ahead.difference_with(&row);
            } else {
                row.difference_with(&reached);
                ahead.union_with(&row);
            }
            reached.union_with(&row);
        }
        reached
    }
}
