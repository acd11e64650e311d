// What a call counts, handed back beside its answer and its scope.
#![tactic(auto)]

ghost use Rattle.std.specs.Prelude.{◌≡◌};
ghost use Rattle.report.specs.Counts.{no_counts};

// No call counts anything yet: a later count is a field here, and zero in `no_counts`.
#[derive(Drop)]
pub struct Report {}

// The report of a call that counts nothing.
pub fn no_counts() -> Report
    ensures { result ≡ no_counts }
{
    Report {}
}
