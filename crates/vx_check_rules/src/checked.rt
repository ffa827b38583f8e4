//! Plans that the rule table allows.

ghost use Rattle.std.specs.Prelude.{◌≡◌, true, None};
ghost use Rattle.vx_check_rules.specs.Checked.{is_allowed, is_root_allowed, refusal_of_plan};

use vx_plan_nodes::TypedPlan;

/// A plan whose notes are shown: the rule table allows every node, and the root.
#[derive(Drop)]
pub struct CheckedPlan {
    plan: TypedPlan,
    ghost every_node: { is_allowed plan ≡ true },
    ghost root: { is_root_allowed plan ≡ true },
}

impl CheckedPlan {
    ghost use Rattle.vx_plan_nodes.specs.TypedView.{resolved_of};
    ghost use Rattle.vx_check_rules.specs.CheckedView.{typed_plan};

    pub(crate) fn new(plan: TypedPlan) -> CheckedPlan
        requires { refusal_of_plan plan ≡ None }
        ensures { typed_plan result ≡ plan }
    {
        CheckedPlan { plan }
    }

    /// The plan.
    pub fn plan(&self) -> &TypedPlan
        ensures same { result.now ≡ typed_plan self.now }
        ensures every_node { is_allowed result.now ≡ true }
        ensures root { is_root_allowed result.now ≡ true }
    {
        &self.plan
    }

    /// Whether the plan says that its root's list is in a total order, as it then is.
    pub fn is_total(&self) -> bool
        ensures { result ≡ (resolved_of (typed_plan self.now)).total }
    {
        self.plan.is_total()
    }
}
