// A report as bytes: each count at its place, big-endian, and zeros elsewhere.
ghost use Rattle.std.specs.Prelude.{◌≡◌};
ghost use Rattle.tychodrel.specs.Answer.{report_bytes};

use report::Report;

// A report's bytes. Nothing is counted yet.
pub fn report_bytes(report: Report) -> [u8; 32]
    ensures { result ≡ report_bytes report }
{
    [0u8; 32]
}
