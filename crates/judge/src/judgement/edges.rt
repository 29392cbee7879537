//! Edges: their time, and the levels that flow along them.
ghost use Rattle.std.specs.Prelude.{◌≡◌, ◌≤◌, true, length};
ghost use Rattle.verdicts.specs.Verdict.{says, fine, first};
ghost use Rattle.std.specs.List.{list_all};
ghost use Rattle.avr.specs.Table.{written_of};
ghost use Rattle.secrecy.specs.Rows.{is_among};
ghost use Rattle.secrecy.specs.Rules.{flow_rule};
ghost use Rattle.row_layout.specs.Views.{rows_in, chip};
ghost use Rattle.judge.specs.Faults.{flow_refusal};
ghost use Rattle.judge.specs.Views.{level_by};
ghost use Rattle.judge.specs.Verdicts.{in_time, flows_along, places_verdict, region_verdict, edge_verdict};

use crate::faults::FlowFault;
use crate::judgement::Judgement;
use crate::judgement::departure::Departure;
use levels::order::Order;
use row_layout::{PLACES, REGION, place_columns};

impl<O: Order> Departure<'_, O> {
    /// Whether an edge, if it comes from inside a region, ends the region in time or stays in it.
    fn is_timed(&self, next: u32, cycles: u8) -> bool
        ensures { result ≡ in_time self.now.judgement.now.routine self.now.at next cycles }
    {
        let routine = self.judgement.routine;
        self.judgement.is_outside(u32::from(self.at))
            || routine.rows.leaves(self.at, next, cycles)
            || routine.rows.stays(self.at, next, cycles)
    }

    /// Whether the word writes a place.
    #[tactic(auto, unfolding(secrecy::specs::Rows::is_among))]
    fn writes(&self, place: u16) -> bool
        ensures { result ≡ is_among (written_of self.now.instruction) place }
    {
        self.written
            .as_slice()
            .iter()
            .any(|written| *written == place)
    }

    /// The level of a place after the word.
    // What the word leaves alone keeps its level. So the table of sources is asked only of what is written.
    #[tactic(auto, using(crate::proofs::Kept::unwritten))]
    fn level_after(&self, place: u16) -> u16
        ensures { result ≡ level_by (O.Order.meaning self.now.judgement.now.order.now) (rows_in self.now.judgement.now.routine.rows) self.now.at self.now.instruction place }
    {
        let judgement = self.judgement;
        if self.writes(place) {
            judgement.level_after(self.at, self.instruction, place)
        } else {
            judgement.routine.rows.level(u32::from(self.at), place)
        }
    }

    /// Whether the level of a place after the word flows to its level in the next row.
    fn flows_at(&self, next: u32, place: u16) -> bool
        ensures { result ≡ flows_along (O.Order.meaning self.now.judgement.now.order.now) self.now.judgement.now.routine self.now.at next place }
    {
        let Judgement { routine, order, .. } = self.judgement;
        let level = self.level_after(place);
        order.flows(level, routine.rows.level(next, place))
    }

    /// Whether the levels of all places that the word writes flow to their levels in the next row.
    fn written_flow(&self, next: u32) -> bool
        ensures { result ≡ list_all (flows_along (O.Order.meaning self.now.judgement.now.order.now) self.now.judgement.now.routine self.now.at next) (written_of self.now.instruction) }
    {
        self.written
            .as_slice()
            .iter()
            .all(|place| self.flows_at(next, *place))
    }

    /// Whether the next row has the same codes, and what the word writes flows: then all levels do, since held ones flow to
    /// themselves.
    fn keeps_levels(&self, next: u32) -> bool
        ensures { result ≡ true → places_verdict (O.Order.meaning self.now.judgement.now.order.now) self.now.judgement.now.routine self.now.at next ≡ fine }
    {
        self.judgement.same_codes(u32::from(self.at), next) && self.written_flow(next)
    }

    /// Whether the level that a place has after the word flows to its code in the next row.
    #[inline(always)]
    fn check_place(&self, next: u32, place: u16, level: u16, code: u16) -> Result<(), FlowFault>
        requires level { level ≡ level_by (O.Order.meaning self.now.judgement.now.order.now) (rows_in self.now.judgement.now.routine.rows) self.now.at self.now.instruction place }
        requires code { code ≡ (rows_in self.now.judgement.now.routine.rows).level next place }
        ensures { says flow_refusal result ≡ flow_rule (O.Order.meaning self.now.judgement.now.order.now) (chip self.now.judgement.now.routine) (rows_in self.now.judgement.now.routine.rows) self.now.at next place }
    {
        if self.judgement.order.flows(level, code) {
            Ok(())
        } else {
            Err(FlowFault::Level {
                at: self.at,
                next,
                place,
            })
        }
    }

    /// Whether the codes of the places flow to those in the next row: after a word that writes nothing they are the levels.
    // One place after another, read from the codes of both rows alone: a return may have hundreds of edges, and asks this on each.
    #[tactic(auto, using(verdicts::proofs::Firsts::first_none, verdicts::proofs::Firsts::first_more, crate::proofs::Kept::level_in, crate::proofs::Kept::left_alone))]
    fn check_unwritten(&self, next: u32) -> Result<(), FlowFault>
        requires at { self.now.at ≤ length self.now.judgement.now.routine.words.now }
        requires row { next ≤ length self.now.judgement.now.routine.words.now }
        requires nothing { length (written_of self.now.instruction) ≡ 0 }
        ensures { says flow_refusal result ≡ first (flow_rule (O.Order.meaning self.now.judgement.now.order.now) (chip self.now.judgement.now.routine) (rows_in self.now.judgement.now.routine.rows) self.now.at next) 35 }
    {
        let levels = self.judgement.codes(u32::from(self.at));
        let codes = self.judgement.codes(next);
        for place in 0..PLACES as u16 {
            let index = usize::from(place);
            self.check_place(next, place, levels[index], codes[index])?;
        }
        Ok(())
    }

    /// Whether the level of each place after the word flows to its level in the next row, each worked out in its turn.
    #[tactic(auto, unfolding(verdicts::specs::Verdict::first_of))]
    fn check_each(&self, next: u32) -> Result<(), FlowFault>
        ensures { says flow_refusal result ≡ places_verdict (O.Order.meaning self.now.judgement.now.order.now) self.now.judgement.now.routine self.now.at next }
    {
        for place in place_columns() {
            if !self.flows_at(next, *place) {
                return Err(FlowFault::Level {
                    at: self.at,
                    next,
                    place: *place,
                });
            }
        }
        Ok(())
    }

    /// Whether the level of each place after the word flows to its level in the next row.
    #[tactic(auto, using(crate::proofs::Ranged::in_turn))]
    fn check_levels(&self, next: u32) -> Result<(), FlowFault>
        ensures { says flow_refusal result ≡ places_verdict (O.Order.meaning self.now.judgement.now.order.now) self.now.judgement.now.routine self.now.at next }
    {
        if self.keeps_levels(next) {
            return Ok(());
        }
        let last = u32::from(self.judgement.len());
        if self.written.as_slice().is_empty() && u32::from(self.at) <= last && next <= last {
            self.check_unwritten(next)
        } else {
            self.check_each(next)
        }
    }

    /// Whether, on an edge from inside a region to inside one, the pc_level flows to the region level of the next row.
    fn check_region(&self, next: u32) -> Result<(), FlowFault>
        ensures { says flow_refusal result ≡ region_verdict (O.Order.meaning self.now.judgement.now.order.now) self.now.judgement.now.routine self.now.at next }
    {
        let judgement = self.judgement;
        if judgement.is_outside(u32::from(self.at))
            || judgement.is_outside(next)
            || judgement
                .order
                .flows(self.pc_level, judgement.routine.rows.region(next))
        {
            Ok(())
        } else {
            Err(FlowFault::Level {
                at: self.at,
                next,
                place: REGION,
            })
        }
    }

    /// The rules of one edge: its time, then its levels, place by place, then its region level.
    pub(crate) fn check_edge(&self, next: u32, cycles: u8) -> Result<(), FlowFault>
        ensures { says flow_refusal result ≡ edge_verdict (O.Order.meaning self.now.judgement.now.order.now) self.now.judgement.now.routine self.now.at next cycles }
    {
        if !self.is_timed(next, cycles) {
            return Err(FlowFault::Time { at: self.at, next });
        }
        self.check_levels(next)?;
        self.check_region(next)
    }
}
