//! Steps, cycles and lists of any relation, and the laws that tie them. There is no code here: `relation` finds them in a
//! table of pairs.
#![tactic(auto)]
