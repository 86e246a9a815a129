use crate::names::{Name, Names};
use crate::options::Options;

/// What the words ask for.
#[derive(Debug, Drop)]
pub enum Command {
    /// To run these files.
    Run {
        /// The files: 1 to 16, each with a name.
        names: Names,
        /// The options of the run.
        options: Options,
    },
    /// To check a file.
    Check {
        /// The file, which has a name.
        name: Name,
    },
    /// To generate.
    Gen {
        /// How many: 2 to 1,000.
        n: u64,
    },
    /// To run one process of a run by itself.
    Solo {
        /// The number of the process: 1 to 1,000,000.
        pid: u64,
        /// The files of the run: 1 to 16, each with a name.
        names: Names,
        /// The options of the run.
        options: Options,
    },
}
