//! On which lines of a file the numbers of a routine stand.
ghost use Rattle.std.specs.Prelude.{◌≡◌};
ghost use Rattle.routine.specs.Stretches.{covers, line_of};

/// Numbers that stand on one line of a file: `count` of a list, from number `first` on.
#[derive(Clone, Copy)]
pub struct Stretch {
    pub first: usize,
    pub count: usize,
    /// The line, counted from 1.
    pub line: usize,
}

impl Stretch {
    /// Whether the number at an index is one of them.
    fn covers(self, index: usize) -> bool
        ensures { result ≡ covers self index }
    {
        self.first <= index && index - self.first < self.count
    }
}

/// The line on which the number at an index was written last, if one was.
pub(crate) fn line_of(stretches: &[Stretch], index: usize) -> Option<usize>
    ensures { result ≡ line_of stretches.now index }
{
    let mut found = None;
    for stretch in stretches {
        if stretch.covers(index) {
            found = Some(stretch.line);
        }
    }
    found
}
