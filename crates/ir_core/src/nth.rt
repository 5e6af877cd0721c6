ghost use Rattle.std.specs.Prelude.{◌≡◌, ◌∷◌, [], slice_get};
ghost use Rattle.std.specs.Option.{option_copied};

/// One of so many, by its position.
pub(crate) fn of_one<T>(at: usize, a: &T) -> Option<&T>
    ensures { option_copied result ≡ slice_get (a.now ∷ []) at }
{
    if at == 0 { Some(a) } else { None }
}

pub(crate) fn of_two<'a, T>(at: usize, a: &'a T, b: &'a T) -> Option<&'a T>
    ensures { option_copied result ≡ slice_get (a.now ∷ b.now ∷ []) at }
{
    match at {
        0 => Some(a),
        1 => Some(b),
        _ => None,
    }
}

pub(crate) fn of_three<'a, T>(at: usize, a: &'a T, b: &'a T, c: &'a T) -> Option<&'a T>
    ensures { option_copied result ≡ slice_get (a.now ∷ b.now ∷ c.now ∷ []) at }
{
    match at {
        0 => Some(a),
        1 => Some(b),
        2 => Some(c),
        _ => None,
    }
}
