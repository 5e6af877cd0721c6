use crate::codes::codes;
use crate::modules::module;
use elf_object::{Image, SymKind, Symbol, read_elf, write_elf};
use image_layout::image;
use std::alloc::Global;
use std::test::Fail;

/// The globals of a module, its data bytes, and its symbols: a name, whether it is a function or an object, and whether it is local
/// or global, its address and its size. Expected values are those of a plain model.
const IMAGES: &str = "||f,F,L,10010,18 main,F,G,10028,18
@a = global i8 -1 @b = global i32 -2 @c = constant i16 258 @d = global i1 true @e = global i1 0|ff000000feffffff02010100|f,F,L,10010,18 main,F,G,10028,18 a,O,G,10000000,1 b,O,G,10000004,4 c,O,G,10000008,2 d,O,G,1000000a,1 e,O,G,1000000b,1
@a = global i8 1 @b = global i32 2, align 16 @c = global i8 3|010000000000000000000000000000000200000003|f,F,L,10010,18 main,F,G,10028,18 a,O,G,10000000,1 b,O,G,10000010,4 c,O,G,10000014,1
@a = global i8 7, align 2 @e = global [0 x i32] zeroinitializer @b = global i8 9 @z = global {} zeroinitializer|0700000009|f,F,L,10010,18 main,F,G,10028,18 a,O,G,10000000,1 e,O,G,10000004,0 b,O,G,10000004,1 z,O,G,10000005,0
@s = private constant [4 x i8] c\"hi\\0A\\00\" @t = internal constant [3 x i8] c\"a\\22b\"|68690a00612262|f,F,L,10010,18 s,O,L,10000000,4 t,O,L,10000004,3 main,F,G,10028,18
%p = type { i8, i32, i16 } @p = global %p { i8 1, i32 2, i16 3 } @q = global [2 x %p] [%p { i8 4, i32 5, i16 6 }, %p zeroinitializer]|010000000200000003000000040000000500000006000000000000000000000000000000|f,F,L,10010,18 main,F,G,10028,18 p,O,G,10000000,c q,O,G,1000000c,18
%q = type { i8, { i16, i8 }, [2 x i32] } @p = global %q { i8 1, { i16, i8 } { i16 2, i8 undef }, [2 x i32] [i32 3, i32 poison] } @r = global %q undef @s = global %q poison|010002000000000003000000000000000000000000000000000000000000000000000000000000000000000000000000|f,F,L,10010,18 main,F,G,10028,18 p,O,G,10000000,10 r,O,G,10000010,10 s,O,G,10000020,10
@a = global [3 x i32] [i32 1, i32 2, i32 3] @b = global ptr @a @c = global ptr getelementptr (i32, ptr @a, i32 2) @d = global ptr null @e = global ptr undef|01000000020000000300000000000010080000100000000000000000|f,F,L,10010,18 main,F,G,10028,18 a,O,G,10000000,c b,O,G,1000000c,4 c,O,G,10000010,4 d,O,G,10000014,4 e,O,G,10000018,4
%p = type { i8, [3 x i16] } @x = internal global ptr getelementptr inbounds (%p, ptr @y, i32 1, i32 1, i32 2) @y = private global [4 x %p] zeroinitializer @z = global ptr getelementptr (i8, ptr @y, i32 -1)|12000010000000000000000000000000000000000000000000000000000000000000000003000010|f,F,L,10010,18 x,O,L,10000000,4 y,O,L,10000004,20 main,F,G,10028,18 z,O,G,10000024,4
@tab = constant [3 x ptr] [ptr @b, ptr @tab, ptr getelementptr ([2 x i16], ptr @b, i32 0, i32 1)] @b = internal global [2 x i16] [i16 -1, i16 4660]|0c000010000000100e000010ffff3412|f,F,L,10010,18 b,O,L,1000000c,4 main,F,G,10028,18 tab,O,G,10000000,c
@\"a b\" = global i8 1 @\"\\22\" = internal global i8 2 @\"$x.y\" = private global i16 3 @7 = global i8 4|0102030004|f,F,L,10010,18 \",O,L,10000001,1 $x.y,O,L,10000002,2 main,F,G,10028,18 a b,O,G,10000000,1 7,O,G,10000004,1
@l = internal global i32 1 @g = global i32 2 @m = private global i8 3 @h = global [5 x i8] zeroinitializer @n = internal global i16 4|01000000020000000300000000000400|f,F,L,10010,18 l,O,L,10000000,4 m,O,L,10000008,1 n,O,L,1000000e,2 main,F,G,10028,18 g,O,G,10000004,4 h,O,G,10000009,5
@w = global i32 305419896 @n = global i1 false @v = global [2 x [2 x i8]] [[2 x i8] [i8 1, i8 2], [2 x i8] undef] @u = global { i8, i32 } { i8 4, i32 5 }, align 8 @t = global [2 x i1] [i1 true, i1 false]|7856341200010200000000000000000004000000050000000100|f,F,L,10010,18 main,F,G,10028,18 w,O,G,10000000,4 n,O,G,10000004,1 v,O,G,10000005,4 u,O,G,10000010,8 t,O,G,10000018,2";

/// The text of each: what it begins with, and two functions that return 0.
const TEXT: &str = "97000000e780800293083000730000001301\
01ff2320110013050000832001001301010167800000130101ff2320110013050000832001001301010167800000";

fn image_of(alloc: Global, globals: &str) -> Result<Image, Fail> {
    let v = module(alloc, globals)?;
    let codes = codes(alloc, &v)?;
    match image(alloc, &v, codes.as_slice()) {
        Ok(image) => Ok(image),
        Err(_) => Err("no image")?,
    }
}

/// An image, once its object file is written and read.
fn read_back(alloc: Global, image: &Image) -> Result<Image, Fail> {
    let file = write_elf(alloc, image)?;
    if file.len() >= 4_294_967_295 {
        return Err("too long")?;
    }
    match read_elf(alloc, file.as_slice()) {
        Ok(image) => Ok(image),
        Err(_) => Err("no object")?,
    }
}

/// Bytes as two digits each.
fn digits(alloc: Global, bytes: &[u8]) -> Result<String, Fail> {
    let mut said = String::new(alloc);
    for byte in bytes {
        write!(said, "{byte:02x}")?;
    }
    Ok(said)
}

fn push_symbol(said: &mut String, symbol: &Symbol) -> Result<(), Fail> {
    for byte in symbol.name.as_slice() {
        said.push(char::from(*byte))?;
    }
    said.push_str(if symbol.kind == SymKind::Func {
        ",F"
    } else {
        ",O"
    })?;
    said.push_str(if symbol.global { ",G" } else { ",L" })?;
    let value = symbol.value;
    let size = symbol.size;
    write!(said, ",{value:x},{size:x}")?;
    Ok(())
}

fn symbols(alloc: Global, symbols: &[Symbol]) -> Result<String, Fail> {
    let mut said = String::new(alloc);
    for (at, symbol) in symbols.iter().enumerate() {
        if at > 0 {
            said.push(' ')?;
        }
        push_symbol(&mut said, symbol)?;
    }
    Ok(said)
}

#[test]
fn images_of_globals(rt: HostRuntime) -> Result<(), Fail> {
    let alloc = rt.alloc();
    for line in IMAGES.lines() {
        let (globals, rest) = line.split_once('|').ok_or("no data")?;
        let (bytes, names) = rest.split_once('|').ok_or("no symbols")?;
        let image = read_back(alloc, &image_of(alloc, globals)?)?;
        assert_eq!(rt;
            digits(alloc, image.data_bytes.as_slice())?.as_str(),
            bytes,
            "{globals}"
        );
        assert_eq!(rt;
            symbols(alloc, image.symbols.as_slice())?.as_str(),
            names,
            "{globals}"
        );
        assert_eq!(rt;
            digits(alloc, image.text.as_slice())?.as_str(),
            TEXT,
            "{globals}"
        );
    }
    Ok(())
}
