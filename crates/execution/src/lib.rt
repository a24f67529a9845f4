//! Execution graphs as the subject has them: events, links and placements, the four relations, the entries as steps, and
//! that every step keeps a graph sound and only adds to it. There is no code here: `graph` holds such a graph in tables.
#![tactic(auto)]
