//! The whole lines of a commit, and one line more.

ghost use Rattle.std.specs.Prelude.{◌≡◌};
ghost use Rattle.delta_log.specs.Judging.{Answers};
ghost use Rattle.delta_log.specs.Sound.{IsWritable};
ghost use Rattle.delta_feeding.specs.Feeding.{no_lines_read, with_next_line};

use delta_log::{DeltaCommit, DeltaError, Reading, error_with_line};
use std::alloc::Global;
use std::marker::Model;

/// How many lines there are, and the commit that they say.
#[derive(Drop)]
pub(crate) struct WholeLines {
    lines: u64,
    reading: Reading,
}

impl Model for WholeLines {
    ghost use Rattle.delta_log.specs.Sound.{IsWritable};
    ghost use Rattle.delta_feeding.specs.Feeding.{LinesRead};

    ghost Value = { LinesRead };

    ghost view = { λ w. record { lines = w.lines; commit = w.reading } };

    ghost invariant = { λ w. IsWritable w.reading };
}

impl WholeLines {
    pub(crate) fn new(alloc: Global) -> WholeLines
        ensures { result ≡ no_lines_read }
    {
        WholeLines {
            lines: 0,
            reading: Reading::new(alloc),
        }
    }

    pub(crate) fn into_commit(self) -> DeltaCommit
        ensures value { result ≡ self.commit }
        ensures sound { IsWritable result }
    {
        self.reading.into_commit()
    }

    /// The lines with one more behind them.
    #[tactic(auto, unfolding(crate::specs::Feeding::with_next_line))]
    pub(crate) fn with_next_line(self, alloc: Global, line: &[u8]) -> Result<WholeLines, DeltaError>
        ensures { Answers result (with_next_line self line.now) }
    {
        let WholeLines { lines, reading } = self;
        let number = lines.saturating_add(1);
        match reading.with_line(alloc, line) {
            Ok(longer) => Ok(WholeLines {
                lines: number,
                reading: longer,
            }),
            Err(error) => Err(error_with_line(error, number)),
        }
    }
}
