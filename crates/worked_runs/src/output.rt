ghost use Rattle.std.specs.Prelude.{◌↔◌, IsTrue};
ghost use Rattle.worked_runs.specs.Outputs.{IsOutputOf};

/// The outputs that a worked example shows.
#[derive(Clone, Copy)]
pub struct Outputs<'a> {
    /// The whole output, or where two are right, one of them.
    pub whole: &'a str,
    /// The other one.
    pub other: Option<&'a str>,
    /// How the output begins, in place of the whole.
    pub begins: Option<&'a str>,
    /// How it ends, in place of the whole.
    pub ends: Option<&'a str>,
}

impl<'a> Outputs<'a> {
    /// Whether an output is one of these: one that begins or that ends as they say, or else one of the whole outputs that they
    /// allow.
    pub fn contains(&self, written: &[u8]) -> bool
        ensures { IsTrue result ↔ IsOutputOf self.now written.now }
    {
        if let Some(head) = self.begins {
            return written.starts_with(head.as_bytes());
        }
        if let Some(end) = self.ends {
            return written.ends_with(end.as_bytes());
        }
        let is_other = match self.other {
            Some(other) => written == other.as_bytes(),
            None => false,
        };
        is_other || written == self.whole.as_bytes()
    }
}
