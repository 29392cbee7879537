//! A level that would be enough in a next row.
ghost use Rattle.std.specs.Prelude.{◌≡◌};
ghost use Rattle.explanations.specs.Needs.{left_behind as left_behind_of, need_for};

use crate::refusal::Refusal;
use flow::leveling::Leveling;
use judge::faults::{FlowFault, JudgeFault};
use levels::order::Order;
use row_layout::REGION;

/// A row, one of its columns, and a level that would be enough there.
#[derive(Clone, Copy)]
pub struct Need {
    pub row: u32,
    pub column: u16,
    pub level: u16,
}

impl Refusal<'_> {
    /// A level that would be enough in the next row where a level does not flow on, by the order that the routine was judged by: what
    /// the word leaves behind, joined with what the row says. It is the least at or above both. None of other refusals.
    pub fn need<O: Order>(&self, order: &O) -> Option<Need>
        ensures { result ≡ need_for (O.Order.meaning order.now) self.now.routine self.now.fault }
    {
        match self.fault {
            JudgeFault::Flow(FlowFault::Level { at, next, place }) => {
                let said = self.routine.rows.cell(next, place);
                Some(Need {
                    row: next,
                    column: place,
                    level: order.join(self.left_behind(order, at, place), said),
                })
            }
            _ => None,
        }
    }

    /// The level that a word leaves behind in a column of the next row.
    fn left_behind<O: Order>(&self, order: &O, at: u16, column: u16) -> u16
        ensures { result ≡ left_behind_of (O.Order.meaning order.now) self.now.routine at column }
    {
        let leveling = Leveling {
            routine: self.routine,
            order,
        };
        if column == REGION {
            leveling.pc_level(at)
        } else {
            leveling.level_after(at, self.routine.instruction(at), column)
        }
    }
}
