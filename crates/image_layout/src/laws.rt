ghost use Rattle.std.specs.Prelude.{◌≤◌, All};
ghost use Rattle.ir_core.specs.declared.module.Module.{Module};
ghost use Rattle.ir_core.specs.Flat.{Program};
ghost use Rattle.ir_core.specs.Proper.{IsProper};
ghost use Rattle.ir_core.specs.Valid.{IsValid};
ghost use Rattle.elf_object.specs.declared.image.TheConstants.{LARGEST_TEXT};
ghost use Rattle.elf_object.specs.Image.{IsImage};
ghost use Rattle.rv_select.specs.Pending.{IsItem};
ghost use Rattle.rv_select.specs.Stands.{IsLaid};
ghost use Rattle.image_layout.specs.Addresses.{Codes};
ghost use Rattle.image_layout.specs.Image.{text_size, image, object};
ghost use Rattle.image_layout.specs.Codes.{AreCodes, IsProgramOf};

/// A program lies in the object of its codes: the stub and the code of each body in the text, the globals in the data, as
/// they are when a run begins. It does nothing: its contract is the law.
pub fn an_image_is_laid()
    ensures { (m : Module) → IsValid m → (codes : Codes) → AreCodes m codes → text_size m codes ≤ LARGEST_TEXT → (p : Program) → IsProgramOf m codes p → IsLaid (object m codes) p }
{}

/// An image of a module's codes is within the bounds of an image: of its text, its data and its symbols. It does nothing: its
/// contract is the law.
pub fn an_image_is_within_bounds()
    ensures { (m : Module) → IsProper m → IsValid m → (codes : Codes) → AreCodes m codes → All (λ c. All IsItem c.1) codes → text_size m codes ≤ LARGEST_TEXT → IsImage (image m codes) }
{}
