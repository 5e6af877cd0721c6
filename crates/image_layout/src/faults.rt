ghost use Rattle.std.specs.Prelude.{◌≡◌};
ghost use Rattle.image_layout.specs.declared.faults.ImageFault.TheVariants as fault;

use thiserror::Error;

/// Why codes have no image.
#[derive(Clone, Copy, Debug, PartialEq, Eq, Error)]
pub enum ImageFault {
    /// The text would have so many bytes, more than the largest.
    #[error("the text is too large")]
    TooLarge(u64),
    #[error("out of memory")]
    NoMemory,
}

impl From<oi_base::NoMemory> for ImageFault {
    ghost from_gives = { λ _ e. e ≡ fault.NoMemory };

    fn from(_error: oi_base::NoMemory) -> ImageFault {
        ImageFault::NoMemory
    }
}
