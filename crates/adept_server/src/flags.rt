// What desks know of types.
ghost use Rattle.std.specs.Prelude.{◌≡◌, ◌||◌, length};
ghost use Rattle.turn_rows.specs.Rows.{zip_with};

// Raises each flag that is raised at its place among the others.
pub(crate) fn raise_all(flags: &mut [bool], others: &[bool])
    requires { length flags.old ≡ length others.now }
    ensures { flags.new ≡ zip_with (λ a b. a || b) flags.old others.now }
{
    let Some((flag, flags_left)) = flags.split_first_mut() else {
        return;
    };
    let Some((other, others_left)) = others.split_first() else {
        return;
    };
    *flag = *flag || *other;
    raise_all(flags_left, others_left);
}
