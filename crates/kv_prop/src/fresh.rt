// Whether a name is new.

ghost use Rattle.std.specs.Prelude.{◌≡◌};
ghost use Rattle.kv_goal.specs.Goals.{plain_goal};
ghost use Rattle.kv_sig.specs.Views.{view_of};
ghost use Rattle.kv_prop.specs.Premises.{is_fresh};

use kv_goal::Goal;
use kv_sig::Env;
use kv_syn::Name;

/// Whether no free variable and no assumed procedure of the sequent has the name, and no symbol.
pub(crate) fn is_fresh(env: &Env<'_>, goal: &Goal, name: &Name) -> bool
    ensures { result ≡ is_fresh (view_of env.now.flat.now) (plain_goal goal.now) name.now }
{
    !goal.has_variable(name) && !goal.has_procedure(name) && env.flat.sig.look(name).is_none()
}
