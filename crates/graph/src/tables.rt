//! The tables of a graph, with what every graph keeps in their type.

ghost use Rattle.execution.specs.Sound.{Sound};
ghost use Rattle.graph.specs.Tables.{content};

use event::Event;
use sequence::Sequence;

pub mod link;
pub mod observe;
pub mod opening;
pub mod place;
pub mod record;

/// The tables of a graph. Events and their sources are two lists, since each is handed out as one slice.
#[derive(Clone, Copy)]
pub struct Graph {
    threads: u8,
    locations: u8,
    events: Sequence<Event, 256>,
    sources: Sequence<Option<u8>, 256>,
    placed: Sequence<u8, 256>,
    ghost sound: { ∥ Sound (content threads locations events sources placed) ∥₁ },
}
