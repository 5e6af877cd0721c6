ghost use Rattle.std.specs.Prelude.{◌≡◌};
ghost use Rattle.inline_certificate.specs.Trees.{any_form, form_of, is_within};

/// The greatest depth of a node in version 1, the root having depth 1.
pub const MOST_DEPTH_1: usize = 4_096;

/// The greatest depth of a node in version 2.
pub const MOST_DEPTH_2: usize = 16_384;

/// Which trees a version has: whether cuts stand in them, and the greatest depth of a node, the root having depth 1, or
/// nothing where any depth will do.
#[derive(Clone, Copy, Debug)]
pub struct Form {
    pub has_cuts: bool,
    pub deepest: Option<usize>,
}

impl Form {
    /// The form with cuts and without a greatest depth.
    pub fn any() -> Form
        ensures { result ≡ any_form }
    {
        Form {
            has_cuts: true,
            deepest: None,
        }
    }

    /// The form of the trees of a version.
    pub fn of(version: u8) -> Form
        ensures { result ≡ form_of version }
    {
        if version == 1 {
            Form {
                has_cuts: false,
                deepest: Some(MOST_DEPTH_1),
            }
        } else {
            Form {
                has_cuts: true,
                deepest: Some(MOST_DEPTH_2),
            }
        }
    }

    /// Whether a node may have this depth.
    pub fn is_within(self, depth: usize) -> bool
        ensures { result ≡ is_within self.deepest depth }
    {
        match self.deepest {
            None => true,
            Some(most) => depth <= most,
        }
    }
}
