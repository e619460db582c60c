// Comparison of profiles.

ghost use Rattle.std.specs.Prelude.{◌≡◌};
ghost use Rattle.kv_trees.specs.Same.{names_eq, profile_eq};

use crate::names::same_name;
use kv_syn::{Name, Profile};

fn same_names(names: &[Name], others: &[Name]) -> bool
    ensures { result ≡ names_eq names.now others.now }
{
    if names.len() != others.len() {
        return false;
    }
    for i in 0..names.len() {
        if !same_name(&names[i], &others[i]) {
            return false;
        }
    }
    true
}

/// Whether the two profiles are of one kind with the same sorts.
pub fn same_profile(profile: &Profile, other: &Profile) -> bool
    ensures { result ≡ profile_eq profile.now other.now }
{
    match (profile, other) {
        (Profile::Sort, Profile::Sort) => true,
        (
            Profile::Fun { args, result },
            Profile::Fun {
                args: args_2,
                result: result_2,
            },
        ) => same_names(args.items(), args_2.items()) && same_name(result, result_2),
        (Profile::Pred { args }, Profile::Pred { args: args_2 }) => same_names(
            args.items(),
            args_2.items(),
        ),
        (
            Profile::Proc { values, refs },
            Profile::Proc {
                values: values_2,
                refs: refs_2,
            },
        ) => same_names(values.items(), values_2.items())
            && same_names(refs.items(), refs_2.items()),
        _ => false,
    }
}
