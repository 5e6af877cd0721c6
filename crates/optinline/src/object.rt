ghost use Rattle.std.specs.Prelude.{◌≡◌, ◌<◌, ◌≤◌, [], IfOk, length};
ghost use Rattle.ir_core.specs.Plain.{plain_program};
ghost use Rattle.ir_core.specs.WellFormed.{IsWellFormed};
ghost use Rattle.frame_layout.specs.declared.laying.TheConstants.{LARGEST_FRAME};
ghost use Rattle.frame_layout.specs.Frame.{frame};
ghost use Rattle.rv_select.specs.declared.selecting.TheConstants.{LARGEST_CODE};
ghost use Rattle.rv_select.specs.Code.{code, code_bytes};
ghost use Rattle.rv_select.specs.Stands.{body_in};
ghost use Rattle.elf_object.specs.declared.image.TheConstants.{LARGEST_TEXT};
ghost use Rattle.image_layout.specs.Codes.{AreCodes};
ghost use Rattle.image_layout.specs.Image as layout;
ghost use Rattle.optinline.specs.Object.{size, body_size, object_file};
ghost use Rattle.optinline.specs.Unbuilt.{unbuilt};

use elf_object::{Image, write_elf};
use image_layout::{ImageFault, image, main_function};
use ir_core::{FlatBody, Verified};
use oi_base::{FuncId, NoMemory};
use rv_select::{Code, SelectFault, select};
use site_inliner::Bodies;
use std::alloc::Global;

/// The file of an object, and the sizes in bytes of its text and of the code of `main`.
#[derive(Debug, Drop)]
pub struct Object {
    pub file: Vec<u8>,
    pub size: usize,
    pub body_size: usize,
}

/// The plain body of a function of the module.
fn plain_body(alloc: Global, v: &Verified, f: FuncId) -> Result<FlatBody, NoMemory>
    requires { f.0 < length v.now.funcs }
    ensures { IfOk result (λ b. b ≡ body_in (plain_program v.now) f.0) }
{
    Bodies::of(alloc, v)?.plain(alloc, f)
}

/// The code of a body that has one.
fn code_of(alloc: Global, body: &FlatBody) -> Result<Code, NoMemory>
    requires formed { IsWellFormed body.now }
    requires frame { frame body.now ≤ LARGEST_FRAME }
    requires fits { code_bytes body.now ≤ LARGEST_CODE }
    ensures { IfOk result (λ c. c ≡ code body.now) }
{
    match select(alloc, body) {
        Ok(code) => Ok(code),
        Err(SelectFault::NoMemory) => Err(NoMemory),
        Err(SelectFault::NoSize(_)) => unreachable!(),
    }
}

/// The image of codes whose text fits.
fn image_of(alloc: Global, v: &Verified, codes: &[(FuncId, Code)]) -> Result<Image, NoMemory>
    requires codes { AreCodes v.now codes.now }
    requires fits { layout.text_size v.now codes.now ≤ LARGEST_TEXT }
    ensures { IfOk result (λ i. i ≡ layout.image v.now codes.now) }
{
    match image(alloc, v, codes) {
        Ok(image) => Ok(image),
        Err(ImageFault::NoMemory) => Err(NoMemory),
        Err(ImageFault::TooLarge(_)) => unreachable!(),
    }
}

/// The object of a verified module of which all is built.
pub fn build_object(alloc: Global, v: &Verified) -> Result<Object, NoMemory>
    requires { unbuilt v.now ≡ [] }
    ensures file { IfOk result (λ o. o.file.items ≡ object_file v.now) }
    ensures size { IfOk result (λ o. o.size ≡ size v.now) }
    ensures body_size { IfOk result (λ o. o.body_size ≡ body_size v.now) }
{
    let main = main_function(v.module());
    let body = plain_body(alloc, v, main)?;
    let code = code_of(alloc, &body)?;
    let body_size = 4 * code.len();
    let codes = [(main, code)];
    let image = image_of(alloc, v, &codes)?;
    let size = image.text.len();
    Ok(Object {
        file: write_elf(alloc, &image)?,
        size,
        body_size,
    })
}
