//! Execution graphs whose verdicts are known, and a proof that the definitions of judging give each of them its verdict.
#![tactic(auto)]

ghost use Rattle.std.specs.Prelude.{◌≡◌, length};
ghost use Rattle.known.specs.Cases.{cases, KnownVerdicts};

/// How many verdicts are known, each of them right by the definitions that the judge calls are specified by.
pub fn known_verdicts() -> u8
    ensures every_known_verdict_is_right { KnownVerdicts }
    ensures as_many_as_the_table_has { result ≡ length cases }
{
    24
}
