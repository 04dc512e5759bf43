//! Configuration files.

use key_names::Text;
use outside::Path;

/// A configuration file.
#[derive(Debug, Drop)]
pub struct FileRow {
    /// Its name.
    pub name: Text,
    /// Where it is written: a path of at least two names, of which the first is `etc`.
    pub path: Path,
    /// Where its template is, below the image's folder of templates: a path of 1 to 38 names.
    pub template: Path,
}
