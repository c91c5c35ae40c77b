//! The verdict of a check on a whole image, and its status.

ghost use Rattle.std.specs.Prelude.{◌≡◌};
ghost use Rattle.qcow2_check.specs.Verdict.{status_of_verdict};

/// The verdict of a command on its image. Every command but `check` returns `Fine`.
#[derive(Clone, Copy, Debug, PartialEq, Eq)]
pub enum Verdict {
    /// Nothing is wrong, or nothing was checked.
    Fine,
    /// Nothing but leaked clusters and copied flags that aren't set: they waste space or cost a copy, and
    /// harm no data.
    Harmless,
    /// Damage that may destroy data.
    Harmful,
}

impl Verdict {
    /// The exit status of a program that ends with this verdict: 0, 3 or 4. Statuses 1 and 2 are for runs
    /// that failed and for invalid command lines.
    pub fn status(self) -> u8
        ensures { result ≡ status_of_verdict self }
    {
        match self {
            Verdict::Fine => 0,
            Verdict::Harmless => 3,
            Verdict::Harmful => 4,
        }
    }
}
