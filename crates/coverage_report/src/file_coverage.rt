//! What covers a configuration file.
ghost use Rattle.std.specs.Prelude.{◌≡◌};
ghost use Rattle.std.specs.List.{list_all};
ghost use Rattle.coverage_report.specs.Checked.{is_covered};

use depend_check::Coverage;
use key_names::Text;

/// A configuration file, and whether it is covered.
#[derive(Debug, Drop)]
pub struct FileCoverage {
    /// The name of the file.
    pub file: Text,
    /// Whether it is covered, or the first reason why it isn't.
    pub coverage: Coverage,
}

fn is_covered(check: &FileCoverage) -> bool
    ensures { result ≡ is_covered check.now }
{
    matches!(check.coverage, Coverage::Covered)
}

/// Whether each of these files is covered. It takes no memory.
pub fn are_covered(checks: &[FileCoverage]) -> bool
    ensures { result ≡ list_all is_covered checks.now }
{
    checks.iter().all(is_covered)
}
