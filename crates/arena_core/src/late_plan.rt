// The open plan of a core, which has memory only while it is open.
ghost use Rattle.std.specs.Prelude.{◌≡◌, None, IfOk, IsSome, is_some, option_map};
ghost use Rattle.marks.specs.Plans.{next_pair, with_next_done};

use marks::CurrentPlan;
use span::names::SpanId;
use std::alloc::{AllocError, Global};
use std::marker::Model;

/// The open plan of folds, if there is one. The room of a plan comes with the mark that opens it,
/// and goes with the close. Until then it takes two words of the core.
#[derive(Drop)]
pub struct LatePlan {
    plan: Option<Box<CurrentPlan>>,
}

impl Model for LatePlan {
    ghost use Rattle.std.specs.Prelude.{None, Option, option_map, unwrap_or};
    ghost use Rattle.marks.specs.Plans.{OpenPlan};

    ghost Value = { Option OpenPlan };

    ghost view = { λ late. unwrap_or (option_map (λ plan. plan.value) late.plan) None };
}

impl LatePlan {
    /// No plan. It takes no memory.
    pub fn new() -> LatePlan
        ensures { result ≡ None }
    {
        LatePlan { plan: None }
    }

    /// Room for a plan, with none in it.
    ///
    /// # Errors
    ///
    /// `AllocError` if memory is refused.
    pub fn room(alloc: Global) -> Result<Box<CurrentPlan>, AllocError>
        ensures { IfOk result (λ plan. plan.value ≡ None) }
    {
        let plan = CurrentPlan::new(alloc)?;
        Ok(Box::new(alloc, plan)?)
    }

    /// Whether a plan is open.
    #[inline]
    pub fn is_open(&self) -> bool
        ensures { result ≡ is_some self.now }
    {
        match &self.plan {
            Some(plan) => plan.is_open(),
            None => false,
        }
    }

    /// The pair that comes next: none if no plan is open, and none if all pairs of the plan are
    /// done with.
    #[inline]
    pub fn next(&self) -> Option<(SpanId, SpanId)>
        ensures { result ≡ next_pair self.now }
    {
        match &self.plan {
            Some(plan) => plan.next(),
            None => None,
        }
    }

    /// Goes on to the pair after the next one.
    #[inline]
    pub fn advance(&mut self)
        requires { IsSome (next_pair self.old) }
        ensures { self.new ≡ option_map with_next_done self.old }
    {
        match &mut self.plan {
            Some(plan) => plan.advance(),
            None => unreachable!(),
        }
    }

    /// Keeps the plan in the place of the one that there was.
    pub fn open(&mut self, plan: Box<CurrentPlan>)
        ensures { self.new ≡ plan.value }
    {
        self.plan = Some(plan);
    }

    /// Ends the plan, if there is one, and gives its memory back.
    pub fn end(&mut self)
        ensures { self.new ≡ None }
    {
        self.plan = None;
    }
}
