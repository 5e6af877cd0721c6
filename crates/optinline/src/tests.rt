use crate::command::tool;
use oi_world::MemDesk;
use std::alloc::Global;
use std::test::Fail;

const SEVEN: &str = "define i32 @main() {\n  ret i32 7\n}\n";

const SUM: &str =
    "define i32 @main() {\n  %a = add i32 2, 3\n  %b = sub i32 %a, 1\n  ret i32 %b\n}\n";

/// The text of the program that returns seven.
const SEVEN_TEXT: [u8; 40] = [
    0x97, 0x00, 0x00, 0x00, 0xe7, 0x80, 0x00, 0x01, 0x93, 0x08, 0x30, 0x00, 0x73, 0x00, 0x00, 0x00,
    0x13, 0x01, 0x01, 0xff, 0x23, 0x20, 0x11, 0x00, 0x13, 0x05, 0x70, 0x00, 0x83, 0x20, 0x01, 0x00,
    0x13, 0x01, 0x01, 0x01, 0x67, 0x80, 0x00, 0x00,
];

/// The text of the program that adds and subtracts.
const SUM_TEXT: [u8; 72] = [
    0x97, 0x00, 0x00, 0x00, 0xe7, 0x80, 0x00, 0x01, 0x93, 0x08, 0x30, 0x00, 0x73, 0x00, 0x00, 0x00,
    0x13, 0x01, 0x01, 0xff, 0x23, 0x20, 0x11, 0x00, 0x93, 0x02, 0x20, 0x00, 0x13, 0x03, 0x30, 0x00,
    0xb3, 0x82, 0x62, 0x00, 0x23, 0x22, 0x51, 0x00, 0x83, 0x22, 0x41, 0x00, 0x13, 0x03, 0x10, 0x00,
    0xb3, 0x82, 0x62, 0x40, 0x23, 0x24, 0x51, 0x00, 0x03, 0x25, 0x81, 0x00, 0x83, 0x20, 0x01, 0x00,
    0x13, 0x01, 0x01, 0x01, 0x67, 0x80, 0x00, 0x00,
];

fn words(alloc: Global, text: &str) -> Result<Vec<String>, Fail> {
    let mut words = Vec::new(alloc);
    for word in text.split(' ') {
        words.push(String::from_str(alloc, word)?)?;
    }
    Ok(words)
}

/// Whether a file is there with these bytes.
fn holds(desk: &MemDesk, name: &str, bytes: &[u8]) -> bool {
    match desk.file(name) {
        Some(found) => found == bytes,
        None => false,
    }
}

/// A `main` of so many operations.
fn operations(alloc: Global, count: u32) -> Result<String, Fail> {
    let mut text = String::from_str(alloc, "define i32 @main() {\n")?;
    for k in 0..count {
        text.push_str(format!(in alloc; "%r{k} = add i32 {k}, 1\n")?.as_str())?;
    }
    text.push_str("ret i32 0 }")?;
    Ok(text)
}

#[test]
fn programs_are_built(rt: HostRuntime) -> Result<(), Fail> {
    let alloc = rt.alloc();
    let build = words(alloc, "build m o d c 1")?;
    let cases = [
        (
            SEVEN,
            "text 40 candidates 0 inlined 0 nodes 1\n",
            "certificate 1\ntext 40\ntree\nL 24\n",
        ),
        (
            SUM,
            "text 72 candidates 0 inlined 0 nodes 1\n",
            "certificate 1\ntext 72\ntree\nL 56\n",
        ),
    ];
    for (module, said, cert) in cases {
        let mut desk = MemDesk::new(alloc, Vec::new(alloc));
        desk.put_file("m", module.as_bytes())?;
        assert_eq!(rt; tool(alloc, build.as_slice(), &mut desk), 0);
        assert_eq!(rt; desk.said(), said.as_bytes());
        assert!(rt; holds(&desk, "d", b""));
        assert!(rt; holds(&desk, "c", cert.as_bytes()));
    }
    Ok(())
}

#[test]
fn objects_have_their_bytes(rt: HostRuntime) -> Result<(), Fail> {
    let alloc = rt.alloc();
    let build = words(alloc, "build m o d c 1")?;
    let mut desk = MemDesk::new(alloc, Vec::new(alloc));
    desk.put_file("m", SEVEN.as_bytes())?;
    assert_eq!(rt; tool(alloc, build.as_slice(), &mut desk), 0);
    let object = desk.file("o").ok_or("no object")?;
    assert_eq!(rt; object.len(), 8512);
    assert_eq!(rt; &object[4096..4136], SEVEN_TEXT.as_slice());
    let mut other = MemDesk::new(alloc, Vec::new(alloc));
    other.put_file("m", SUM.as_bytes())?;
    assert_eq!(rt; tool(alloc, build.as_slice(), &mut other), 0);
    let object = other.file("o").ok_or("no object")?;
    assert_eq!(rt; object.len(), 8512);
    assert_eq!(rt; &object[4096..4168], SUM_TEXT.as_slice());
    Ok(())
}

#[test]
fn causes(rt: HostRuntime) -> Result<(), Fail> {
    let alloc = rt.alloc();
    let longest = operations(alloc, 400)?;
    let longer = operations(alloc, 401)?;
    let spaces = String::from_utf8(vec![in alloc; b' '; 1_048_577]?)
        .ok()
        .ok_or("spaces")?;
    let text = "text 6440 candidates 0 inlined 0 nodes 1\n";
    let cases = [
        ("build m o d c 1", longest.as_str(), 0, text),
        ("build m o d c 1", longer.as_str(), 13, "not built 402:1\n"),
        ("build m o d c 1", spaces.as_str(), 9, "too long m\n"),
        ("build n o d c 1", SEVEN, 18, "absent n\n"),
        ("build m o d c", SEVEN, 2, "words\n"),
        ("build m o d c 0", SEVEN, 2, "words\n"),
        ("build m o d c 05", SEVEN, 2, "words\n"),
        ("build m o d c 1000001", SEVEN, 2, "words\n"),
        ("build m o d o 5", SEVEN, 2, "words\n"),
        ("run m", SEVEN, 2, "words\n"),
    ];
    for (command, module, status, said) in cases {
        let mut desk = MemDesk::new(alloc, Vec::new(alloc));
        desk.put_file("m", module.as_bytes())?;
        let given = words(alloc, command)?;
        assert_eq!(rt; tool(alloc, given.as_slice(), &mut desk), status, "{said}");
        assert_eq!(rt; desk.said(), said.as_bytes());
        assert_eq!(rt; desk.file("o").is_some(), status == 0);
    }
    Ok(())
}

/// The longest file of spaces is read, and is the text of a module without `main`.
#[test]
fn as_many_spaces_as_may_be(rt: HostRuntime) -> Result<(), Fail> {
    let alloc = rt.alloc();
    let build = words(alloc, "build m o d c 1")?;
    let spaces = vec![in alloc; b' '; 1_048_576]?;
    let mut desk = MemDesk::new(alloc, Vec::new(alloc));
    desk.put_file("m", &spaces)?;
    assert_eq!(rt; tool(alloc, build.as_slice(), &mut desk), 4);
    assert_eq!(rt; desk.said(), b"module 1:1 rule 1\n".as_slice());
    Ok(())
}

/// A module in each line, with `~` at the ends of its own lines, and after a tab its status and what is said.
const MODULES: &str = "\t4 module 1:1 rule 1
define i32 @\"main\"() {~  ret i32 7~}\t0 text 40 candidates 0 inlined 0 nodes 1
define dso_local i32 @main() #0 {~start:~  ret i32 4294967295~}~%T = type { i32 }~declare i32 @getchar()~attributes #0 = { noinline }~target triple = \"riscv32\"\t0 text 40 candidates 0 inlined 0 nodes 1
define i32 @main() {~  ret i32 -2147483648~}\t0 text 40 candidates 0 inlined 0 nodes 1
define i32 @main() {~  %2 = add nsw i32 2, 3~  %1 = sub i32 %2, 1~  ret i32 %1~}\t0 text 72 candidates 0 inlined 0 nodes 1
; ModuleID = 'a.c'~source_filename = \"a.c\"~target datalayout = \"e-m:e-p:32:32-i64:64-n32-S128\"~target triple = \"riscv32-unknown-unknown-elf\"~~%struct.P = type { i32, i32 }~~@p = internal global %struct.P { i32 3, i32 4 }, align 4~~; Function Attrs: noinline nounwind~define internal i32 @get(ptr noundef readonly %q) #0 {~entry:~  %0 = load i32, ptr %q, align 4, !tbaa !5~  ret i32 %0~}~~; Function Attrs: noinline nounwind~define dso_local i32 @main() local_unnamed_addr #0 {~entry:~  %call = tail call i32 @get(ptr noundef getelementptr inbounds (%struct.P, ptr @p, i32 0, i32 1)) #1~  ret i32 %call~}~~attributes #0 = { noinline nounwind \"frame-pointer\"=\"none\" }~attributes #1 = { nounwind }~~!llvm.module.flags = !{!0, !1}~!llvm.ident = !{!4}~~!0 = !{i32 1, !\"wchar_size\", i32 4}~!1 = !{i32 1, !\"target-abi\", !\"ilp32\"}~!4 = !{!\"clang version 18.1.0\"}~!5 = !{!6, !6, i64 0}~!6 = !{!\"int\", !7, i64 0}~!7 = !{!\"omnipotent char\", !8, i64 0}~!8 = !{!\"Simple C/C++ TBAA\"}~\t13 not built 8:1
define i32 @main() {~  ret i32 7~}~define i32 @f() {~  ret i32 7~}\t13 not built 4:1
define i32 @f() {~  ret i32 7~}~define i32 @main() {~  br label %a~a:~  ret i32 7~}\t13 not built 1:1
define i32 @main() {~  br label %a~a:~  ret i32 7~}\t13 not built 2:3
define i32 @main() {~  ret i32 7~a:~  unreachable~}\t13 not built 3:1
define i32 @main() {~  %a = add i32 2, 3~  %b = mul i32 2, %a~  ret i32 %b~}\t13 not built 3:3
define i32 @main() {~  %a = add i8 2, 3~  ret i32 0~}\t13 not built 2:3
define i32 @main() {~  %a = add i32 undef, 3~  ret i32 %a~}\t13 not built 2:3
define i32 @main() {~  %a = add i32 1, 3~  ret i32 poison~}\t13 not built 3:3
define i32 @main() {~  %x = add i64 1, 2~  ret i32 %x~}\t4 module 2:12 left out
source_filename = \"a.c\t4 module 1:19 string
define i32 @main() {~  %c = call i32 @getchar()~  %z = icmp eq i32 %c, 0~  br i1 %z, label %a, label %b~a:~  %x = add i32 %c, 1~  br label %b~b:~  ret i32 %x~}~declare i32 @getchar()\t4 module 9:3 rule 18
define i32 @main() {~  ret i32\t4 module 2:10 syntax
define i32 @main() {~  %a = add i32 1, 1~  %a = add i32 1, 1~  ret i32 %a~}\t4 module 3:3 rule 9
?\t4 module 1:1 byte
define i32 @main() {~  ret i32 1234567890123456789012345678901~}\t4 module 2:11 number
@a = global [4294967296 x i8] zeroinitializer\t4 module 1:14 limit length
define i32 @main(i32, i32, i32, i32, i32, i32, i32, i32, i32) {~  ret i32 7~}\t4 module 1:58 limit params
@a = global [1 x [1 x [1 x [1 x [1 x [1 x [1 x [1 x [1 x [1 x [1 x [1 x [1 x [1 x [1 x [1 x [1 x [1 x [1 x [1 x [1 x [1 x [1 x [1 x [1 x [1 x [1 x [1 x [1 x [1 x [1 x [1 x [1 x [1 x [1 x [1 x [1 x [1 x [1 x [1 x [1 x [1 x [1 x [1 x [1 x [1 x [1 x [1 x [1 x [1 x [1 x [1 x [1 x [1 x [1 x [1 x [1 x [1 x [1 x [1 x [1 x [1 x [1 x [1 x [1 x \t4 module 1:333 limit nesting
define i32 @main() {~  %a = add i32 %b, 1~  %b = add i32 1, 1~  ret i32 %a~}\t4 module 2:3 rule 18
define i32 @main() {~  %0 = add i32 1, 1~  ret i32 %0~}\t4 module 2:3 rule 9
define i32 @main() {~  ret i32 4294967296~}\t4 module 2:3 rule 14
define i32 @main() {~  ret i32 -2147483649~}\t4 module 2:3 rule 14
define i32 @main() {~  ret i32 7~} x\t4 module 3:3 syntax
define i32 @main() {~  ret i32 %x~}\t4 module 2:3 rule 10
define internal i32 @main() {~  ret i32 7~}\t4 module 1:1 rule 1
define i32 @main() {~  ret i1 true~}\t4 module 2:3 rule 13
@main = global i8 0~define i32 @main() {~  ret i32 7~}\t4 module 2:1 rule 2
target triple = \"x\"~define i32 @main() {~  ret i32 %x~}\t4 module 1:1 rule 8
@g = global %T zeroinitializer~define i32 @main() {~  ret i32 7~}\t4 module 1:1 rule 3
%T = type { %T }~@g = global %T zeroinitializer~define i32 @main() {~  ret i32 7~}\t4 module 1:1 rule 3
define i32 @main() {~  %a = alloca [16777217 x i8]~  ret i32 7~}\t4 module 2:3 rule 4
define i32 @main() {~  ret i32 7~}~@g = global [2 x i8] c\"abc\"\t4 module 4:1 rule 5
@a = global [1048576 x i8] zeroinitializer~@b = global i8 0~define i32 @main() {~  ret i32 7~}\t4 module 2:1 rule 6
define i32 @main() {~  %a = alloca i32, align 2~  ret i32 7~}\t4 module 2:3 rule 7
define i32 @main() {~  br label %b~b:~  %a = alloca i32~  ret i32 7~}\t4 module 4:3 rule 11
define i32 @main() {~e:~  br label %e~}\t4 module 3:3 rule 12
define i32 @main() {~  %a = zext i32 1 to i8~  ret i32 7~}\t4 module 2:3 rule 13
define i32 @main() {~  call void @f()~  ret i32 7~}\t4 module 2:3 rule 15
define i32 @main() {~  br i1 true, label %a, label %b~a:~  br label %b~b:~  %v = phi i32 [ 1, %a ]~  ret i32 %v~}\t4 module 6:3 rule 16
define i32 @main() {~  switch i8 0, label %a [ i8 1, label %a i8 257, label %b ]~a:~  ret i32 7~b:~  ret i32 7~}\t4 module 2:3 rule 14
define i32 @main() {~  switch i8 0, label %a [ i8 -1, label %a i8 255, label %b ]~a:~  ret i32 7~b:~  ret i32 7~}\t4 module 2:3 rule 17
define i32 @f() {~  ret i32 %x~}~define internal i32 @main() {~  ret i32 7~}~target datalayout = \"E\"\t4 module 1:1 rule 1
define i32 @f() {~  ret i32 %x~}~define i32 @main() {~  ret i32 7~}~target datalayout = \"E\"\t4 module 1:1 rule 8
define i32 @main() {~  %a = add i32 %b, 1~  ret i1 %a~}~define i32 @f() {~  %a = add i32 1, 1~  %a = add i32 1, 1~  ret i32 7~}\t4 module 2:3 rule 10";

/// The bytes of a text whose lines end in `~`.
pub fn lines_of(alloc: Global, text: &str) -> Result<Vec<u8>, Fail> {
    let mut bytes = Vec::new(alloc);
    for byte in text.as_bytes() {
        bytes.push(if *byte == b'~' { b'\n' } else { *byte })?;
    }
    Ok(bytes)
}

/// The status of a build of these bytes and what it says.
fn told(alloc: Global, bytes: &[u8]) -> Result<String, Fail> {
    let build = words(alloc, "build m o d c 1")?;
    let mut desk = MemDesk::new(alloc, Vec::new(alloc));
    desk.put_file("m", bytes)?;
    let status = tool(alloc, build.as_slice(), &mut desk);
    let said = std::str::from_utf8(desk.said()).ok().ok_or("no text")?;
    Ok(format!(in alloc; "{status} {said}")?)
}

#[test]
fn modules(rt: HostRuntime) -> Result<(), Fail> {
    let alloc = rt.alloc();
    for line in MODULES.lines() {
        let (text, wanted) = line.split_once('\t').ok_or("no tab")?;
        let bytes = lines_of(alloc, text)?;
        let found = told(alloc, &bytes)?;
        assert_eq!(rt; found.as_str().trim_end(), wanted, "of {text}");
    }
    Ok(())
}

#[test]
fn a_call_fails(rt: HostRuntime) -> Result<(), Fail> {
    let alloc = rt.alloc();
    let build = words(alloc, "build m o d c 1")?;
    for call in 1..6 {
        let mut desk = MemDesk::new(alloc, vec![in alloc; call]?);
        desk.put_file("m", SEVEN.as_bytes())?;
        assert_eq!(rt; tool(alloc, build.as_slice(), &mut desk), 3);
        assert_eq!(rt; desk.file("o").is_some(), call > 2, "call {call}");
        assert_eq!(rt; desk.file("d").is_some(), call > 3, "call {call}");
        assert_eq!(rt; desk.file("c").is_some(), call > 4, "call {call}");
        assert_eq!(rt; desk.said(), b"".as_slice());
    }
    Ok(())
}
