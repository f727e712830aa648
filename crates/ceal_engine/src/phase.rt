// What an engine has of its run, and how far a repair has come.

ghost use Rattle.std.specs.Prelude.{◌≡◌};
ghost use Rattle.ceal_engine.specs.Partial.{progress_of};

/// What an engine has of its run.
#[derive(Clone, Copy, PartialEq, Eq, Debug)]
pub enum Phase {
    /// no function was run yet
    New,
    /// the run on the present inputs
    Finished,
    /// a run, but an input was edited since
    Pending,
    /// a part of a repair, which is under way
    Partial,
    /// no run: it was out of fuel, or there was no memory
    Dropped,
}

/// How far a slice has brought the run.
#[derive(Clone, Copy, PartialEq, Eq, Debug)]
pub enum Progress {
    /// a read is stale still
    More,
    /// the run is up to date
    Done,
}

/// The outcome of continuing a repair.
#[derive(Clone, Copy, PartialEq, Eq, Debug)]
pub enum Came {
    /// a read is stale still
    More,
    /// no read is stale
    Done,
    /// more steps were spent than the fuel allows, so the call was run again
    Anew,
}

impl Came {
    /// How far the run is.
    pub fn progress(self) -> Progress
        ensures { result ≡ progress_of self }
    {
        match self {
            Came::More => Progress::More,
            Came::Done => Progress::Done,
            Came::Anew => Progress::Done,
        }
    }
}
