ghost use Rattle.std.specs.Prelude.{◌≡◌, min};
ghost use Rattle.std.specs.Int.{next_multiple_of};
ghost use Rattle.ir_core.specs.Sizes.{natural, word_layout, array_of, empty, after, rounded};
ghost use Rattle.ir_core.specs.Capped.{capped};

use crate::limits::TOO_LARGE;
use oi_base::Width;

/// A size and an alignment in bytes. The size of what is larger than `LARGEST` stands as one more than it.
#[derive(Clone, Copy, Debug, PartialEq, Eq)]
pub(crate) struct Layout {
    pub(crate) size: u32,
    pub(crate) align: u32,
}

impl Layout {
    pub(crate) const POINTER: Layout = Layout { size: 4, align: 4 };

    /// A struct without fields.
    pub(crate) const EMPTY: Layout = Layout { size: 0, align: 1 };

    pub(crate) fn of_word(width: Width) -> Layout
        ensures { result ≡ word_layout width }
    {
        let bytes = match width {
            Width::W1 | Width::W8 => 1,
            Width::W16 => 2,
            Width::W32 => 4,
        };
        Layout {
            size: bytes,
            align: bytes,
        }
    }

    /// An array of `count` of these.
    pub(crate) fn times(self, count: u32) -> Layout
        ensures { result ≡ capped (array_of count self) }
    {
        Layout {
            size: at_most(u64::from(count) * u64::from(self.size)),
            align: self.align,
        }
    }

    /// The fields so far and one more.
    pub(crate) fn then(self, field: Layout) -> Layout
        ensures { result ≡ capped (after self field) }
    {
        Layout {
            size: at_most(round_up(self.size, field.align) + u64::from(field.size)),
            align: self.align.max(field.align),
        }
    }

    /// A struct of the fields so far.
    pub(crate) fn finished(self) -> Layout
        ensures { result ≡ capped (rounded self) }
    {
        Layout {
            size: at_most(round_up(self.size, self.align)),
            align: self.align,
        }
    }
}

/// The next multiple of `align` that is not below `size`.
pub(crate) fn round_up(size: u32, align: u32) -> u64
    ensures { result ≡ next_multiple_of size align }
{
    let size = u64::from(size);
    size.checked_next_multiple_of(u64::from(align))
        .unwrap_or(size)
}

/// A size, or one more than the limit where it is beyond that.
pub(crate) fn at_most(size: u64) -> u32
    ensures { result ≡ min size TOO_LARGE }
{
    size.min(u64::from(TOO_LARGE)) as u32
}

/// What is known of a type name: nothing, the position of its definition, or that and its layout.
#[derive(Clone, Copy, Debug)]
pub(crate) enum Name {
    Undefined,
    Defined(usize),
    Laid(usize, Layout),
}
