//! Open writes placed one after the other, from the lowest number and the first place on.
//! Each write that is placed makes another graph, so a struct of graph and model would be built anew at every step.
ghost use Rattle.std.specs.Prelude.{MatchBool};
ghost use Rattle.graph.specs.View.{view};
ghost use Rattle.verdict.specs.Fillings.{Fillable};
ghost use Rattle.search.specs.Found.{Finds, FindsFrom, Puts};
ghost use Rattle.model.specs.Meaning.{Serves};

use crate::cyclic::lowest_cyclic;
use graph::Graph;
use model::Model;

/// The graph with the full modification order to show: of those that extend its placements and leave every order
/// free of cycles, the one with the smallest first place of an open write, then second, and so on.
pub fn search<M: Model>(graph: &Graph, model: &M) -> Option<Graph>
    ensures the_first_that_serves_or_none_exactly_when_none_does { Finds (M.Model.meaning model.now) (view graph.now) result }
{
    match lowest_cyclic(graph, model) {
        None => fill(graph, model, 0),
        Some(_) => None,
    }
}

/// The same of a graph whose orders have no cycle, with open writes below `from` left out.
#[cycle(fill_fits)]
fn fill<M: Model>(graph: &Graph, model: &M, from: u32) -> Option<Graph>
    requires { Serves (M.Model.meaning model.now) (view graph.now) }
    ensures { FindsFrom from (M.Model.meaning model.now) (view graph.now) result }
{
    let Some(write) = graph.next_open(from) else {
        return Some(*graph);
    };
    let mut others_fit = false;
    for after in graph.placed() {
        if let Some(tried) = placed_after(graph, model, write, *after) {
            if let Some(full) = fill(&tried, model, from) {
                return Some(full);
            }
            // Asked once: where the higher ones do not fit with this one left out, no other place of it helps.
            if !others_fit && !fits(graph, model, write + 1) {
                return None;
            }
            others_fit = true;
        }
    }
    None
}

/// Whether the open writes from a number on can all be placed with no order made cyclic.
/// The highest ones are tried alone first: where few do not fit, more do not.
#[cycle(fill_fits)]
fn fits<M: Model>(graph: &Graph, model: &M, from: u32) -> bool
    requires { Serves (M.Model.meaning model.now) (view graph.now) }
    ensures { MatchBool result (Fillable (M.Model.meaning model.now) from (view graph.now)) (Fillable (M.Model.meaning model.now) from (view graph.now) → ⊥) }
{
    match graph.next_open(from) {
        Some(write) => fits(graph, model, write + 1) && fill(graph, model, from).is_some(),
        None => true,
    }
}

/// The graph with a write put directly after another, unless that is denied or gives some order a cycle.
fn placed_after<M: Model>(graph: &Graph, model: &M, write: u32, after: u8) -> Option<Graph>
    ensures { Puts write after (M.Model.meaning model.now) (view graph.now) result }
{
    let mut put = *graph;
    put.place(write, after as u32).ok()?;
    match lowest_cyclic(&put, model) {
        None => Some(put),
        Some(_) => None,
    }
}
