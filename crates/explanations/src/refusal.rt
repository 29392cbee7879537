//! A refusal, with what it is about.
use judge::faults::JudgeFault;
use row_layout::RoutineView;

/// A fault that the judge found, and the routine that it judged. As text it is the number of the refusal, what it carries, and an
/// explanation.
#[derive(Clone, Copy)]
pub struct Refusal<'a> {
    pub fault: JudgeFault,
    pub routine: RoutineView<'a>,
}
