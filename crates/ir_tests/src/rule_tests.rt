use crate::verifier_tests::differences;
use std::test::Fail;

/// Modules of one or two functions, and after a tab what the verifier says of them (`differences`): whether one of them is a good
/// `main`. Expected values of all tables are those of a plain model.
const MAINS: &str = "define i32 @main() {~  ret i32 1~}\tvalid
define internal i32 @main() {~  ret i32 1~}\trule 1 1:1
define i32 @main(i32) {~  ret i32 1~}\trule 1 1:1
define i8 @main() {~  ret i8 1~}\trule 1 1:1
define void @main() {~  ret void~}\trule 1 1:1
define ptr @main() {~  ret ptr null~}\trule 1 1:1
define i32 @mai() {~  ret i32 1~}\trule 1 1:1
define i32 @main2() {~  ret i32 1~}\trule 1 1:1
define i32 @f() {~  ret i32 1~}~define i32 @main() {~  ret i32 1~}\tvalid
define internal i32 @main() {~  ret i32 1~}~define i32 @main() {~  ret i32 1~}\trule 2 4:1
define i32 @main(i32, i32) {~  ret i32 1~}~define internal void @f() {~  ret void~}\trule 1 1:1
define i32 @Main() {~  ret i32 1~}\trule 1 1:1";

#[test]
fn a_good_main(rt: HostRuntime) -> Result<(), Fail> {
    assert_eq!(rt; differences(rt.alloc(), MAINS)?.as_str(), "");
    Ok(())
}

/// Definitions of types and their names in types: names that are not defined, defined twice, stand for no struct or for `void`, and
/// types that hold themselves.
const TYPE_NAMES: &str =
    "%B = type {}~%C = type {}~@g1 = global %B undef~define i32 @main() {~  ret i32 1~}\tvalid
%A = type { { %B, %C } }~%B = type {}~%C = type { i32, i32 }~@g1 = global %A undef~define i32 @main() {~  ret i32 1~}\tvalid
%B = type {}~%A = type { [2 x i8], [3 x %B] }~@g1 = global { %B } undef~@g2 = global ptr undef~define i32 @main() {~  ret i32 1~}\tvalid
%A = type %C~%D = type {}~%C = type { { ptr, i32, i8 } }~%B = type %D~define i32 @main() {~  ret i32 1~}\tvalid
%A = type { [0 x %B], {} }~%B = type { { ptr, ptr }, [1 x i8] }~define i32 @main() {~  ret i32 1~}\tvalid
define i32 @main() {~  ret i32 1~}\tvalid
%A = type { { ptr, i32 }, ptr, { i32, %B } }~@g1 = global { { i8, %B }, i32, { ptr, %B } } undef~define i32 @main() {~  ret i32 1~}\trule 3 1:1
%A = type { { i8, %A }, i32, [2 x void] }~define i32 @main() {~  ret i32 1~}\trule 3 1:1
%A = type %A~@g1 = global i32 undef~@g2 = global { {}, { i32, i32 }, {} } undef~define i32 @main() {~  ret i32 1~}\trule 3 1:1
%C = type { { %D }, ptr }~%A = type {}~%B = type %C~@g1 = global i8 undef~@g2 = global %A undef~@g3 = global %A undef~define i32 @main() {~  ret i32 1~}\trule 3 1:1
%B = type %B~%A = type { i32, %A, i8 }~define i32 @main() {~  ret i32 1~}\trule 3 1:1
%A = type %B~%D = type { [0 x i32], [2 x i32] }~%C = type { [0 x %D] }~%B = type %B~@g1 = global %A undef~define i32 @main() {~  ret i32 1~}\trule 3 1:1
%B = type { i32 }~%A = type %A~@g1 = global %B undef~@g2 = global { i32, { %A, %A, ptr } } undef~@g3 = global %A undef~define i32 @main() {~  ret i32 1~}\trule 3 2:1
%A = type {}~%B = type { [2 x %C], { i32 } }~%C = type %D~@g1 = global {} undef~@g2 = global [3 x %C] undef~define i32 @main() {~  ret i32 1~}\trule 3 2:1
%E = type { [3 x i8] }~%C = type %D~%A = type { { %B, %B, %D } }~%B = type { %C }~@g1 = global {} undef~define i32 @main() {~  ret i32 1~}\trule 3 2:1
%B = type { { %B } }~%C = type { { %D, ptr }, %D, void }~%A = type { void, %D, i32 }~%D = type { { i32, i32 }, i32 }~@g1 = global %D undef~@g2 = global i8 undef~define i32 @main() {~  ret i32 1~}\trule 3 1:1
%A = type { i32 }~%A = type { %B, [2 x %A], %C }~@g1 = global {} undef~define i32 @main() {~  ret i32 1~}\trule 3 2:1
%B = type i32~%A = type { [2 x ptr], i8 }~@g1 = global [2 x %B] undef~@g2 = global { i32 } undef~define i32 @main() {~  ret i32 1~}\trule 3 3:1
%C = type i32~%A = type { { i8 }, i32, {} }~%B = type { { i32 }, %C }~@g1 = global { { i32, ptr }, [3 x i32], { i8 } } undef~@g2 = global ptr undef~define i32 @main() {~  ret i32 1~}\trule 3 3:1
%B = type i32~%A = type { {}, { i8, i32 } }~@g1 = global %B undef~define i32 @main() {~  ret i32 1~}\trule 3 3:1
%A = type {}~%C = type i32~%B = type { i32, %C }~@g1 = global { {} } undef~@g2 = global i32 undef~define i32 @main() {~  ret i32 1~}\trule 3 3:1
%D = type %C~%C = type { i8 }~%A = type %B~define i32 @main() {~  ret i32 1~}\trule 3 3:1
%A = type { {}, [0 x %E] }~%B = type {}~%E = type {}~@g1 = global { [1 x %C], { %B, i8 } } undef~@g2 = global { %A, { %D, %B } } undef~define i32 @main() {~  ret i32 1~}\trule 3 4:1
%B = type {}~%A = type %B~%C = type { %A, i32, [2 x %A] }~%A = type { i32 }~@g1 = global %C undef~@g2 = global i8 undef~@g3 = global %B undef~define i32 @main() {~  ret i32 1~}\trule 3 4:1
%A = type {}~@g1 = global %A undef~@g2 = global ptr undef~@g3 = global { { ptr, ptr, %B } } undef~define i32 @main() {~  ret i32 1~}\trule 3 4:1
%D = type {}~%B = type {}~%C = type { {}, {} }~%A = type { %E }~%E = type i32~@g1 = global {} undef~@g2 = global [0 x %A] undef~@g3 = global { %A, [2 x %E], %C } undef~define i32 @main() {~  ret i32 1~}\trule 3 4:1
%A = type {}~%C = type { { i32, i32 }, [2 x ptr] }~@g1 = global {} undef~@g2 = global { [3 x i32], %B } undef~@g3 = global [3 x {}] undef~define i32 @main() {~  ret i32 1~}\trule 3 4:1
%C = type { [1 x ptr], ptr, [2 x %D] }~%B = type {}~%D = type { i32 }~%A = type { i32 }~%D = type {}~@g1 = global i8 undef~@g2 = global [2 x [3 x i8]] undef~define i32 @main() {~  ret i32 1~}\trule 3 5:1
%A = type {}~%C = type { %E }~%D = type { {}, i8, {} }~%B = type { {} }~%E = type { { i8, ptr, ptr }, void, i32 }~define i32 @main() {~  ret i32 1~}\trule 3 5:1
%D = type {}~%C = type {}~%E = type {}~%B = type { { ptr } }~@g1 = global %A undef~@g2 = global { [0 x %B], %B, { i32 } } undef~@g3 = global {} undef~define i32 @main() {~  ret i32 1~}\trule 3 5:1
%C = type {}~%A = type { i32 }~%A = type %C~%D = type i32~%B = type {}~@g1 = global [0 x %D] undef~@g2 = global [2 x %B] undef~@g3 = global %D undef~define i32 @main() {~  ret i32 1~}\trule 3 6:1
%D = type %E~%B = type { { ptr } }~%E = type { [3 x %C] }~%C = type {}~@g1 = global i32 undef~@g2 = global [1 x [1 x %A]] undef~@g3 = global { [0 x %E], { %E } } undef~define i32 @main() {~  ret i32 1~}\trule 3 6:1
%E = type { [1 x i8], { i32, i32 } }~%A = type { %A, { i8, %D }, %E }~%D = type %E~%B = type { [1 x i32], [2 x %E], { %E, %C } }~%C = type { [3 x i32] }~@g1 = global ptr undef~define i32 @main() {~  ret i32 1~}\trule 3 2:1
%A = type { %C }~%C = type { { ptr }, %A, %C }~%B = type {}~@g1 = global %B undef~@g2 = global i8 undef~define i32 @main() {~  ret i32 1~}\trule 3 1:1
%A = type {}~%C = type { [2 x %D], %D, [2 x %C] }~%B = type { [0 x i32] }~%D = type { {} }~@g1 = global { %C } undef~define i32 @main() {~  ret i32 1~}\trule 3 2:1
%T = type { [0 x %T] }~define i32 @main() {~  ret i32 1~}\trule 3 1:1
%T = type { i32, { ptr, [2 x %T] } }~define i32 @main() {~  ret i32 1~}\trule 3 1:1
%A = type %A~@g1 = global %A undef~define i32 @main() {~  ret i32 1~}\trule 3 1:1
%A = type { i8, %B }~%B = type { %C }~%C = type { %A }~define i32 @main() {~  ret i32 1~}\trule 3 1:1
%A = type %B~%B = type { %A }~define i32 @main() {~  ret i32 1~}\trule 3 1:1
%A = type { ptr }~%B = type { %A, %A }~%C = type { %B, %A }~@g1 = global %C undef~define i32 @main() {~  ret i32 1~}\tvalid
%B = type { %A }~%A = type { %A }~define i32 @main() {~  ret i32 1~}\trule 3 2:1
%A = type void~@g1 = global { %A } undef~define i32 @main() {~  ret i32 1~}\trule 3 1:1
%A = type { void }~define i32 @main() {~  ret i32 1~}\trule 3 1:1
%A = type [2 x i8]~@g1 = global ptr getelementptr (%A, ptr @g1)~define i32 @main() {~  ret i32 1~}\trule 3 2:1
define void @f() {~  %p = alloca %A~  ret void~}~define i32 @main() {~  ret i32 1~}\trule 3 2:3
define void @f(%A %p) {~  ret void~}~define i32 @main() {~  ret i32 1~}\trule 3 1:1
define %A @f() {~  unreachable~}~define i32 @main() {~  ret i32 1~}\trule 3 1:1
define void @f() {~  %p = load void, ptr undef~  ret void~}~define i32 @main() {~  ret i32 1~}\trule 3 2:3";

#[test]
fn names_of_types(rt: HostRuntime) -> Result<(), Fail> {
    assert_eq!(rt; differences(rt.alloc(), TYPE_NAMES)?.as_str(), "");
    Ok(())
}

/// Types about the greatest size, through names and in arrays, of globals, allocas with and without a count, and source types of
/// `getelementptr`, constant ones too.
const SIZES: &str = "define i32 @main() {~  ret i32 1~}\tvalid
%A = type { [8 x [8 x [8 x [8 x [8 x [8 x [8 x [8 x i8]]]]]]]] }~%B = type { %A, [0 x %A] }~@g1 = global [8 x [8 x [8 x [8 x [8 x [8 x [8 x [8 x i8]]]]]]]] undef~@g2 = global ptr getelementptr (%A, ptr @g2)~define void @f() {~  alloca %A~  alloca i32, i32 4194304~  alloca {}, i32 99999999~  getelementptr %A, ptr undef~  store ptr getelementptr (%A, ptr @g1), ptr undef~  ret void~}~define i32 @main() {~  ret i32 1~}\trule 6 3:1
%A = type { [8 x [8 x [8 x [8 x [8 x [8 x [8 x [8 x [8 x i8]]]]]]]]] }~%B = type { %A, ptr }~@g1 = global ptr undef~define void @f() {~  load %A, ptr undef~  store %B undef, ptr undef~  load [8 x [8 x [8 x [8 x [8 x [8 x [8 x [8 x [8 x i8]]]]]]]]], ptr undef~  ret void~}~define i32 @main() {~  ret i32 1~}\trule 13 5:3
@g1 = global [8 x [8 x [8 x [8 x [8 x [8 x [8 x [8 x i8]]]]]]]] undef~@g2 = global { [8 x [8 x [8 x [8 x [8 x [8 x [8 x [8 x i8]]]]]]]], i8 } undef~define i32 @main() {~  ret i32 1~}\trule 4 2:1
%A = type { [8 x [8 x [8 x [8 x [8 x [8 x [8 x [8 x [8 x i8]]]]]]]]] }~@g1 = global {} undef~define void @f() {~  alloca [0 x %A]~  ret void~}~define i32 @main() {~  ret i32 1~}\trule 4 4:3
%A = type { %B, [0 x %C] }~%B = type { i8 }~%C = type { ptr, { %D, i16 } }~%D = type { [0 x [8 x [8 x [8 x [8 x [8 x [8 x [8 x [8 x i8]]]]]]]]] }~@g1 = global {} undef~@g2 = global %A undef~define i32 @main() {~  ret i32 1~}\tvalid
%A = type { %C, %C, %C, %C }~%B = type { %A }~%C = type { [8 x [8 x [8 x [8 x [8 x [8 x [8 x i8]]]]]]], i8, [8 x [8 x [8 x [8 x [8 x [8 x [8 x i8]]]]]]] }~@g1 = global i8 undef~define void @f() {~  alloca %C~  getelementptr %B, ptr undef~  alloca %A~  ret void~}~define i32 @main() {~  ret i32 1~}\trule 4 7:3
%A = type { [8 x [8 x [8 x [8 x [8 x [8 x [8 x [8 x i8]]]]]]]] }~%B = type { %A, [0 x %A] }~%C = type { %B, i8 }~@g1 = global i8 undef~define void @f() {~  alloca %A~  alloca %B~  store %C undef, ptr undef~  alloca %C~  ret void~}~define i32 @main() {~  ret i32 1~}\trule 4 9:3
@g1 = global ptr undef~@g2 = global i8 undef~@g3 = global i32 undef~define void @f() {~  alloca i8, i32 16777216~  alloca i32, i32 4194305~  alloca i8, i32 16777217~  ret void~}~define i32 @main() {~  ret i32 1~}\trule 4 6:3
%A = type { i32, i32 }~define void @f() {~  alloca {}~  alloca %A, i32 2097152~  alloca %A, i32 2097153~  ret void~}~define i32 @main() {~  ret i32 1~}\trule 4 5:3
define void @f() {~  alloca [9 x [8 x [8 x [8 x [8 x [8 x [8 x [8 x [8 x i8]]]]]]]]], i32 0~  ret void~}~define i32 @main() {~  ret i32 1~}\trule 4 2:3
@g1 = global ptr getelementptr ([8 x [8 x [8 x [8 x [8 x [8 x [8 x [8 x i8]]]]]]]], ptr @g1)~@g2 = global ptr getelementptr ({ [8 x [8 x [8 x [8 x [8 x [8 x [8 x [8 x i8]]]]]]]], ptr }, ptr @g2)~@g3 = global [9 x [9 x [9 x [9 x [9 x [9 x [9 x [9 x i8]]]]]]]] undef~define i32 @main() {~  ret i32 1~}\trule 4 2:1
define void @f() {~  load [9 x [9 x [9 x [9 x [9 x [9 x [9 x [9 x i8]]]]]]]], ptr undef~  getelementptr [8 x [8 x [8 x [8 x [8 x [8 x [8 x [8 x i8]]]]]]]], ptr undef~  getelementptr i32, ptr undef~  getelementptr [9 x [9 x [9 x [9 x [9 x [9 x [9 x [9 x i8]]]]]]]], ptr undef~  ret void~}~define i32 @main() {~  ret i32 1~}\trule 4 5:3
%A = type { %B }~%B = type { [9 x [9 x [9 x [9 x [9 x [9 x [9 x [9 x i32]]]]]]]] }~@g1 = global i16 undef~define void @f() {~  store ptr getelementptr (ptr, ptr @g1), ptr undef~  store ptr getelementptr ({ i32, [0 x %A] }, ptr @g1), ptr undef~  alloca %A~  ret void~}~define i32 @main() {~  ret i32 1~}\trule 4 6:3
%A = type { [9 x [9 x [9 x [9 x [9 x [9 x [9 x i32]]]]]]] }~%B = type { [9 x %A] }~@g1 = global i8 undef~define void @f() {~  alloca %A, i32 0~  alloca %A, i32 1~  alloca %B~  ret void~}~define i32 @main() {~  ret i32 1~}\trule 4 5:3
%A = type {}~%B = type { %C }~%C = type { [4 x [4 x [4 x [4 x i32]]]] }~%D = type { [8 x [8 x [8 x [8 x [8 x %B]]]]] }~%E = type { [2 x %D] }~@g1 = global [0 x %E] undef~@g2 = global %D undef~define void @f() {~  alloca [0 x %E]~  alloca %E~  ret void~}~define i32 @main() {~  ret i32 1~}\trule 4 6:1";

#[test]
fn sizes_of_types(rt: HostRuntime) -> Result<(), Fail> {
    assert_eq!(rt; differences(rt.alloc(), SIZES)?.as_str(), "");
    Ok(())
}

/// Initialisers of every kind, first those that fit: numbers at the ends of their ranges, words, names, strings, arrays, structs, named
/// types, and constant `getelementptr`.
const INITIALISERS: &str =
    "@g1 = global i1 true~@g2 = global i1 false~@g3 = global i1 1~@g4 = global i1 -1~@g5 = global i32 -2147483648~@g6 = global i32 4294967295~@g7 = global i8 255~@g8 = global i8 -128~@g9 = global ptr @g9~@g10 = global ptr @g10~@g11 = global i32 0~@g12 = global i32 undef~@g13 = global ptr undef~@g14 = global [3 x i8] undef~@g15 = global { i32, ptr } undef~@g16 = global i32 poison~@g17 = global ptr poison~@g18 = global [3 x i8] poison~@g19 = global {} zeroinitializer~@g20 = global [0 x i8] zeroinitializer~@g21 = global ptr zeroinitializer~define i32 @main() {~  ret i32 1~}\tvalid
@g1 = global [3 x i8] c\"abc\"~@g2 = global [0 x i8] c\"\"~@g3 = global [1 x i8] c\"d\"~@g4 = global [0 x i32] []~@g5 = global [2 x i32] [ i32 1, i32 2 ]~@g6 = global [3 x i8] [ i8 97, i8 98, i8 99 ]~@g7 = global {} {}~@g8 = global { i32 } { i32 1 }~@g9 = global { i32, i8 } { i32 1, i8 2 }~@g10 = global [3 x i32] [ i32 1, i32 undef, i32 poison ]~@g11 = global [2 x ptr] [ ptr null, ptr @g10 ]~@g12 = global [2 x [2 x i32]] [ [2 x i32] [ i32 1, i32 2 ], [2 x i32] [ i32 3, i32 4 ] ]~@g13 = global [2 x [2 x i32]] [ [2 x i32] zeroinitializer, [2 x i32] undef ]~@g14 = global { i32, { i8, ptr } } { i32 1, { i8, ptr } { i8 2, ptr null } }~@g15 = global [2 x [3 x i8]] [ [3 x i8] c\"abc\", [3 x i8] c\"def\" ]~@g16 = global { [0 x i32] } { [0 x i32] [] }~@g17 = global { [0 x i32] } { [0 x i32] zeroinitializer }~define i32 @main() {~  ret i32 1~}\tvalid
@g1 = global ptr getelementptr (i32, ptr @g1)~@g2 = global ptr getelementptr (i32, ptr @g1, i32 0)~@g3 = global ptr getelementptr (i32, ptr @g1, i8 255)~@g4 = global ptr getelementptr (i32, ptr @g1, i16 -32768)~@g5 = global ptr getelementptr ([3 x i32], ptr @g5, i32 0, i32 0)~@g6 = global ptr getelementptr ([3 x i32], ptr @g5, i32 0, i32 9)~@g7 = global ptr getelementptr ([3 x i32], ptr @g5, i32 0, i1 1)~@g8 = global ptr getelementptr ([3 x i32], ptr @g5, i32 0, i16 -5)~@g9 = global ptr getelementptr ({ i32, i8 }, ptr @g9, i32 0, i32 1)~@g10 = global ptr getelementptr ({ i32, i8 }, ptr @g9, i32 5, i32 0)~@g11 = global ptr getelementptr ({ i32, [3 x { i8, ptr }] }, ptr @g11, i32 0, i32 1, i8 2, i32 1)~@g12 = global ptr getelementptr ([0 x i32], ptr @g12, i32 0, i32 7)~@g13 = global ptr getelementptr ({}, ptr @g12, i32 3)~define i32 @main() {~  ret i32 1~}\tvalid
@g1 = global [2 x { i32, ptr }] [ { i32, ptr } { i32 1, ptr @g1 }, { i32, ptr } { i32 2, ptr getelementptr ([2 x { i32, ptr }], ptr @g1, i32 0, i32 1, i32 1) } ]~define i32 @main() {~  ret i32 1~}\tvalid
%A = type { i32, i8 }~@g1 = global %A undef~@g2 = global %A poison~@g3 = global %A zeroinitializer~@g4 = global [2 x %A] zeroinitializer~@g5 = global %A { i32 1, i8 2 }~@g6 = global [2 x %A] [ %A { i32 1, i8 2 }, %A zeroinitializer ]~@g7 = global { %A } { %A { i32 3, i8 4 } }~define i32 @main() {~  ret i32 1~}\tvalid
%A = type { i32, i8 }~%B = type { i32, i8 }~@g1 = global { %A, %B } { %A zeroinitializer, %B zeroinitializer }~@g2 = global { %B, %A } { %B zeroinitializer, %A zeroinitializer }~define i32 @main() {~  ret i32 1~}\tvalid
%A = type { i32, i8 }~%B = type %A~@g1 = global %B { i32 1, i8 2 }~@g2 = global [2 x %B] [ %B { i32 1, i8 2 }, %B zeroinitializer ]~define i32 @main() {~  ret i32 1~}\tvalid
%A = type { { i32, i8 }, i32 }~@g1 = global %A { { i32, i8 } { i32 1, i8 2 }, i32 3 }~define i32 @main() {~  ret i32 1~}\tvalid
%A = type { ptr }~@g1 = global %A { ptr @g1 }~define i32 @main() {~  ret i32 1~}\tvalid
%A = type { i32, [4 x i8] }~%B = type %A~@g1 = global ptr getelementptr ([2 x %B], ptr @g1, i32 0, i32 1, i32 1, i32 3)~@g2 = global ptr getelementptr (%B, ptr @g1, i32 0, i32 1)~define i32 @main() {~  ret i32 1~}\tvalid
@g1 = global i1 2~define i32 @main() {~  ret i32 1~}\trule 5 1:1
@g1 = global i1 -2~define i32 @main() {~  ret i32 1~}\trule 5 1:1
@g1 = global i8 256~define i32 @main() {~  ret i32 1~}\trule 5 1:1
@g1 = global i8 0~@g2 = global i8 -129~define i32 @main() {~  ret i32 1~}\trule 5 2:1
@g1 = global i16 65536~@g2 = global i16 -32769~define i32 @main() {~  ret i32 1~}\trule 5 1:1
@g1 = global i16 65535~@g2 = global i16 -32769~define i32 @main() {~  ret i32 1~}\trule 5 2:1
@g1 = global i32 4294967296~define i32 @main() {~  ret i32 1~}\trule 5 1:1
@g1 = global i32 4294967295~@g2 = global i32 -2147483649~define i32 @main() {~  ret i32 1~}\trule 5 2:1
@g1 = global i8 true~define i32 @main() {~  ret i32 1~}\trule 5 1:1
@g1 = global i1 true~@g2 = global ptr true~@g3 = global i1 false~define i32 @main() {~  ret i32 1~}\trule 5 2:1
@g1 = global ptr null~@g2 = global i32 null~define i32 @main() {~  ret i32 1~}\trule 5 2:1
@g1 = global ptr 0~define i32 @main() {~  ret i32 1~}\trule 5 1:1
@g1 = global ptr @main~define i32 @main() {~  ret i32 1~}\trule 5 1:1
@g1 = global ptr @g3~define i32 @main() {~  ret i32 1~}\trule 5 1:1
@g1 = global ptr @g1~@g2 = global i32 @g1~define i32 @main() {~  ret i32 1~}\trule 5 2:1
@g1 = global [2 x i8] c\"abc\"~define i32 @main() {~  ret i32 1~}\trule 5 1:1
@g1 = global [4 x i8] c\"abc\"~define i32 @main() {~  ret i32 1~}\trule 5 1:1
@g1 = global [3 x i8] c\"abc\"~@g2 = global [3 x i32] c\"abc\"~define i32 @main() {~  ret i32 1~}\trule 5 2:1
@g1 = global [1 x i1] c\"a\"~define i32 @main() {~  ret i32 1~}\trule 5 1:1
@g1 = global i32 c\"a\"~define i32 @main() {~  ret i32 1~}\trule 5 1:1
@g1 = global { i8, i8, i8 } c\"abc\"~define i32 @main() {~  ret i32 1~}\trule 5 1:1
@g1 = global [1 x [1 x i8]] c\"a\"~define i32 @main() {~  ret i32 1~}\trule 5 1:1
@g1 = global [2 x i32] [ i32 1 ]~define i32 @main() {~  ret i32 1~}\trule 5 1:1
@g1 = global [2 x i32] [ i32 1, i32 2, i32 3 ]~define i32 @main() {~  ret i32 1~}\trule 5 1:1
@g1 = global [1 x i32] []~define i32 @main() {~  ret i32 1~}\trule 5 1:1
@g1 = global [2 x i32] [ i32 1, i8 2 ]~define i32 @main() {~  ret i32 1~}\trule 5 1:1
@g1 = global [2 x i32] [ i32 1, i32 4294967296 ]~define i32 @main() {~  ret i32 1~}\trule 5 1:1
@g1 = global { i32, i8 } { i32 1 }~define i32 @main() {~  ret i32 1~}\trule 5 1:1
@g1 = global { i32, i8 } { i32 1, i8 2, i8 3 }~define i32 @main() {~  ret i32 1~}\trule 5 1:1
@g1 = global { i32, i8 } { i8 1, i32 2 }~define i32 @main() {~  ret i32 1~}\trule 5 1:1
@g1 = global { i32, i8 } { i32 1, i8 256 }~define i32 @main() {~  ret i32 1~}\trule 5 1:1
@g1 = global {} { i32 1 }~define i32 @main() {~  ret i32 1~}\trule 5 1:1
@g1 = global { [2 x i32] } [ i32 1, i32 2 ]~define i32 @main() {~  ret i32 1~}\trule 5 1:1
@g1 = global { i32, i32 } [ i32 1, i32 2 ]~define i32 @main() {~  ret i32 1~}\trule 5 1:1
@g1 = global [2 x i32] { i32 1, i32 2 }~define i32 @main() {~  ret i32 1~}\trule 5 1:1
@g1 = global i32 []~define i32 @main() {~  ret i32 1~}\trule 5 1:1
@g1 = global ptr {}~define i32 @main() {~  ret i32 1~}\trule 5 1:1
@g1 = global [2 x ptr] [ ptr null, ptr @g3 ]~define i32 @main() {~  ret i32 1~}\trule 5 1:1
@g1 = global [2 x [2 x i32]] [ [2 x i32] zeroinitializer, [3 x i32] zeroinitializer ]~define i32 @main() {~  ret i32 1~}\trule 5 1:1
@g1 = global [2 x [2 x i32]] [ [2 x i32] zeroinitializer, { i32, i32 } zeroinitializer ]~define i32 @main() {~  ret i32 1~}\trule 5 1:1
@g1 = global { i32, { i8, ptr } } { i32 1, { i8, ptr } { i8 2, ptr 0 } }~define i32 @main() {~  ret i32 1~}\trule 5 1:1
@g1 = global { i32, { i8, ptr } } { i32 1, { ptr, i8 } zeroinitializer }~define i32 @main() {~  ret i32 1~}\trule 5 1:1
%A = type { i32, i8 }~@g1 = global %A { i32 1, i8 256 }~define i32 @main() {~  ret i32 1~}\trule 5 2:1
%A = type { i32, i8 }~@g1 = global [2 x %A] [ %A zeroinitializer, { i32, i8 } zeroinitializer ]~define i32 @main() {~  ret i32 1~}\trule 5 2:1
%A = type { i32, i8 }~%B = type { i32, i8 }~@g1 = global [2 x %A] [ %A zeroinitializer, %B zeroinitializer ]~define i32 @main() {~  ret i32 1~}\trule 5 3:1
%A = type { i32, i8 }~%B = type { i32, i8 }~@g1 = global { %A, %B } { %B zeroinitializer, %A zeroinitializer }~define i32 @main() {~  ret i32 1~}\trule 5 3:1
%A = type { i32, i8 }~%B = type %A~@g1 = global %B { i32 1, i32 2 }~define i32 @main() {~  ret i32 1~}\trule 5 3:1
%A = type { ptr }~@g1 = global %A { ptr @g2 }~define i32 @main() {~  ret i32 1~}\trule 5 2:1
@g1 = global ptr getelementptr (i32, ptr @main)~define i32 @main() {~  ret i32 1~}\trule 5 1:1
@g1 = global ptr getelementptr (i32, ptr @g2)~define i32 @main() {~  ret i32 1~}\trule 5 1:1
@g1 = global i32 getelementptr (i32, ptr @g1, i32 0)~define i32 @main() {~  ret i32 1~}\trule 5 1:1
@g1 = global ptr getelementptr (i32, ptr @g1, i8 256)~define i32 @main() {~  ret i32 1~}\trule 5 1:1
@g1 = global ptr getelementptr (i32, ptr @g1, i32 0, i32 0)~define i32 @main() {~  ret i32 1~}\trule 5 1:1
@g1 = global ptr getelementptr ([3 x i32], ptr @g1, i32 0, i1 2)~define i32 @main() {~  ret i32 1~}\trule 5 1:1
@g1 = global ptr getelementptr ([3 x i32], ptr @g1, i32 0, ptr 0)~define i32 @main() {~  ret i32 1~}\trule 5 1:1
@g1 = global ptr getelementptr ({ i32, i8 }, ptr @g1, i32 0, i32 2)~define i32 @main() {~  ret i32 1~}\trule 5 1:1
@g1 = global ptr getelementptr ({ i32, i8 }, ptr @g1, i32 0, i32 -1)~define i32 @main() {~  ret i32 1~}\trule 5 1:1
@g1 = global ptr getelementptr ({ i32, i8 }, ptr @g1, i32 0, i16 1)~define i32 @main() {~  ret i32 1~}\trule 5 1:1
@g1 = global ptr getelementptr ({ i32, i8 }, ptr @g1, i32 0, i32 4294967296)~define i32 @main() {~  ret i32 1~}\trule 5 1:1
%A = type { i32, [4 x i8] }~%B = type %A~@g1 = global ptr getelementptr ([2 x %B], ptr @g1, i32 0, i32 1, i32 1, i32 3)~@g2 = global ptr getelementptr (%B, ptr @g1, i32 0, i32 2)~define i32 @main() {~  ret i32 1~}\trule 5 4:1
@g1 = global i32 1~@g2 = global i8 300~@g3 = global ptr @g9~@g4 = global i8 1~define i32 @main() {~  ret i32 1~}\trule 5 2:1
@g1 = global { [0 x i32] } { [1 x i32] [] }~define i32 @main() {~  ret i32 1~}\trule 5 1:1";

#[test]
fn initialisers_of_globals(rt: HostRuntime) -> Result<(), Fail> {
    assert_eq!(rt; differences(rt.alloc(), INITIALISERS)?.as_str(), "");
    Ok(())
}

/// Globals whose sizes and alignments come to the most bytes of data, or past them.
const TOTALS: &str = "define i32 @main() {~  ret i32 1~}\tvalid
@g1 = global i8 undef~define i32 @main() {~  ret i32 1~}\tvalid
@g1 = global [4 x [8 x [8 x [8 x [8 x [8 x [8 x i8]]]]]]] undef~define i32 @main() {~  ret i32 1~}\tvalid
@g1 = global [4 x [8 x [8 x [8 x [8 x [8 x [8 x i8]]]]]]] undef~@g2 = global i8 undef~define i32 @main() {~  ret i32 1~}\trule 6 2:1
@g1 = global i8 undef~@g2 = global [4 x [8 x [8 x [8 x [8 x [8 x [8 x i8]]]]]]] undef~define i32 @main() {~  ret i32 1~}\trule 6 2:1
@g1 = global [2 x [8 x [8 x [8 x [8 x [8 x [8 x i8]]]]]]] undef~@g2 = global [2 x [8 x [8 x [8 x [8 x [8 x [8 x i8]]]]]]] undef~define i32 @main() {~  ret i32 1~}\tvalid
@g1 = global [4 x [8 x [8 x [8 x [8 x [8 x [8 x i8]]]]]]] undef~@g2 = global [0 x i8] undef~define i32 @main() {~  ret i32 1~}\tvalid
@g1 = global [4 x [8 x [8 x [8 x [8 x [8 x [8 x i8]]]]]]] undef~@g2 = global [0 x i32] undef~define i32 @main() {~  ret i32 1~}\tvalid
@g1 = global [0 x i8] undef~@g2 = global [4 x [8 x [8 x [8 x [8 x [8 x [8 x i8]]]]]]] undef~@g3 = global i8 undef~@g4 = global i8 undef~define i32 @main() {~  ret i32 1~}\trule 6 3:1
@g1 = global i32 undef~@g2 = global [1 x [8 x [8 x [8 x [8 x [8 x [8 x i32]]]]]]] undef~define i32 @main() {~  ret i32 1~}\trule 6 2:1
@g1 = global i8 undef~@g2 = global [8 x [8 x [8 x [8 x [8 x [8 x i32]]]]]] undef~define i32 @main() {~  ret i32 1~}\trule 6 2:1
@g1 = global i8 undef~@g2 = global [1 x [8 x [8 x [8 x [8 x [8 x [8 x i8]]]]]]] undef~@g3 = global [1 x [8 x [8 x [8 x [8 x [8 x [8 x i16]]]]]]] undef~define i32 @main() {~  ret i32 1~}\tvalid
@g1 = global i8 undef~@g2 = global [1 x [8 x [8 x [8 x [8 x [8 x [8 x i16]]]]]]] undef~@g3 = global [1 x [8 x [8 x [8 x [8 x [8 x [8 x i8]]]]]]] undef~@g4 = global [8 x [8 x [8 x [8 x [8 x [8 x i8]]]]]] undef~define i32 @main() {~  ret i32 1~}\trule 6 4:1
@g1 = global [7 x [7 x [7 x i32]]] undef~@g2 = global i8 undef~@g3 = global [7 x [7 x [7 x [7 x [7 x [7 x i32]]]]]] undef~@g4 = global i8 undef~define i32 @main() {~  ret i32 1~}\tvalid
@g1 = global i8 undef~@g2 = global [3 x [7 x [7 x [8 x [8 x [8 x [8 x [8 x i32]]]]]]]] undef~@g3 = global i32 undef~define i32 @main() {~  ret i32 1~}\trule 4 2:1
@g1 = global [2 x [8 x [8 x [8 x [8 x [8 x [8 x i8]]]]]]] undef, align 0~@g2 = global i8 undef, align 0~@g3 = global i8 undef, align 0~define i32 @main() {~  ret i32 1~}\trule 7 1:1
@g1 = global i8 undef, align 2147483648~define i32 @main() {~  ret i32 1~}\trule 7 1:1
@g1 = global i8 undef~@g2 = global i8 undef, align 2147483648~define i32 @main() {~  ret i32 1~}\trule 6 2:1
@g1 = global [0 x i8] undef~@g2 = global i8 undef, align 2147483648~define i32 @main() {~  ret i32 1~}\trule 7 2:1
@g1 = global i8 undef~@g2 = global [0 x i8] undef, align 1048576~define i32 @main() {~  ret i32 1~}\trule 7 2:1
@g1 = global i8 undef~@g2 = global [0 x i8] undef, align 1048577~define i32 @main() {~  ret i32 1~}\trule 6 2:1
@g1 = global i8 undef~@g2 = global [0 x i8] undef, align 2097152~define i32 @main() {~  ret i32 1~}\trule 6 2:1
@g1 = global i8 undef~@g2 = global i8 undef, align 524288~@g3 = global i8 undef, align 524288~define i32 @main() {~  ret i32 1~}\trule 6 3:1
@g1 = global i8 undef~@g2 = global i8 undef, align 524288~@g3 = global [2 x [8 x [8 x [8 x [8 x [8 x [8 x i8]]]]]]] undef~define i32 @main() {~  ret i32 1~}\trule 6 3:1
@g1 = global [4 x [8 x [8 x [8 x [8 x [8 x [8 x i8]]]]]]] undef~@g2 = global [0 x i8] undef, align 16~define i32 @main() {~  ret i32 1~}\tvalid
@g1 = global [4 x [8 x [8 x [8 x [8 x [8 x [8 x i8]]]]]]] undef~@g2 = global i8 undef, align 4294967295~@g3 = global [0 x i8] undef~define i32 @main() {~  ret i32 1~}\trule 6 2:1
%A = type { i8, i32 }~%B = type { %A, i8 }~@g1 = global [8 x [8 x [8 x [8 x [8 x %A]]]]] undef~@g2 = global [8 x [8 x [8 x [8 x [8 x %B]]]]] undef~@g3 = global i8 undef~@g4 = global %A undef~define i32 @main() {~  ret i32 1~}\tvalid
%A = type { i8, i32 }~@g1 = global [2 x [8 x [8 x [8 x [8 x [8 x [8 x %A]]]]]]] undef~@g2 = global i16 undef~define i32 @main() {~  ret i32 1~}\trule 6 2:1
%A = type { i8, i32 }~@g1 = global [2 x [8 x [8 x [8 x [8 x [8 x [8 x %A]]]]]]] undef~@g2 = global [0 x i8] undef~@g3 = global [0 x i8] undef, align 4096~define i32 @main() {~  ret i32 1~}\trule 6 2:1
@g1 = global i8 undef~@g2 = global [4 x i32] undef, align 1~@g3 = global [4 x i32] undef, align 1~@g4 = global [4 x [8 x [8 x [8 x [8 x [8 x [8 x i8]]]]]]] undef, align 3~define i32 @main() {~  ret i32 1~}\trule 6 4:1";

#[test]
fn the_size_of_all_data(rt: HostRuntime) -> Result<(), Fail> {
    assert_eq!(rt; differences(rt.alloc(), TOTALS)?.as_str(), "");
    Ok(())
}

/// Every `align` of globals, allocas, loads and stores: powers of two, other numbers, and those below a type's own.
const ALIGNMENTS: &str =
    "@g1 = global i16 undef~define void @f() {~  load { i16, ptr, i8 }, ptr undef, align 16~  ret void~}~define i32 @main() {~  ret i32 1~}\trule 13 3:3
%A = type {}~%B = type { %C, { ptr, %C, i32 } }~%C = type { ptr, i16 }~define i32 @main() {~  ret i32 1~}\tvalid
%B = type { i32 }~%A = type {}~@g1 = global i16 undef~@g2 = global ptr undef, align 8~define i32 @main() {~  ret i32 1~}\tvalid
define i32 @main() {~  ret i32 1~}\tvalid
%B = type {}~%A = type {}~define void @f() {~  store { %A } undef, ptr undef, align 4~  store { i16 } undef, ptr undef, align 4~  ret void~}~define i32 @main() {~  ret i32 1~}\trule 13 4:3
%A = type {}~%C = type {}~%B = type { { i32, %C, i16 } }~define void @f() {~  load %B, ptr undef~  alloca [1 x i8], align 4~  ret void~}~define i32 @main() {~  ret i32 1~}\trule 13 5:3
%A = type { ptr, i32 }~define void @f() {~  alloca i16, align 2~  ret void~}~define i32 @main() {~  ret i32 1~}\tvalid
%A = type {}~@g1 = global { [2 x ptr], %A, i16 } undef, align 4~define i32 @main() {~  ret i32 1~}\tvalid
@g1 = global ptr undef, align 8~@g2 = global { i16, {}, i16 } undef, align 8~@g3 = global ptr undef~define i32 @main() {~  ret i32 1~}\tvalid
%C = type { {}, { i16, i32 } }~%B = type {}~%A = type {}~@g1 = global i16 undef~@g2 = global { %B, %B } undef, align 8~define i32 @main() {~  ret i32 1~}\tvalid
@g1 = global { [0 x ptr] } undef, align 1~@g2 = global [3 x ptr] undef, align 2~@g3 = global i32 undef, align 4~define void @f() {~  store i16 undef, ptr undef, align 32~  ret void~}~define i32 @main() {~  ret i32 1~}\trule 7 1:1
define void @f() {~  alloca [0 x ptr], align 32~  alloca ptr~  ret void~}~define i32 @main() {~  ret i32 1~}\trule 7 2:3
@g1 = global i32 undef, align 3~define void @f() {~  load [2 x i32], ptr undef, align 8~  ret void~}~define i32 @main() {~  ret i32 1~}\trule 7 1:1
@g1 = global {} undef, align 0~@g2 = global ptr undef, align 3~@g3 = global { [0 x ptr] } undef, align 8~define void @f() {~  load ptr, ptr undef~  load [2 x i16], ptr undef, align 6~  store ptr undef, ptr undef, align 32~  ret void~}~define i32 @main() {~  ret i32 1~}\trule 7 1:1
@g1 = global { [0 x i16] } undef, align 6~define void @f() {~  alloca i8, align 2~  ret void~}~define i32 @main() {~  ret i32 1~}\trule 7 1:1
@g1 = global i8 undef, align 3~define i32 @main() {~  ret i32 1~}\trule 7 1:1
@g1 = global { { i16, i8, i16 }, i16 } undef~@g2 = global i32 undef, align 1~@g3 = global i16 undef, align 16~define void @f() {~  alloca [0 x i32], align 2~  alloca { ptr, i16 }, align 8~  load {}, ptr undef, align 8~  ret void~}~define i32 @main() {~  ret i32 1~}\trule 7 2:1
%A = type {}~@g1 = global ptr undef, align 3~@g2 = global %A undef, align 3~define void @f() {~  store i8 undef, ptr undef, align 0~  load i16, ptr undef, align 3~  ret void~}~define i32 @main() {~  ret i32 1~}\trule 7 2:1
@g1 = global { i32 } undef, align 8~@g2 = global i32 undef, align 1~define i32 @main() {~  ret i32 1~}\trule 7 2:1
@g1 = global { ptr, ptr } undef~@g2 = global { i8, { ptr }, [1 x i32] } undef, align 0~@g3 = global [3 x i8] undef, align 2~define void @f() {~  store [3 x i8] undef, ptr undef, align 4~  store { ptr, i16 } undef, ptr undef, align 6~  ret void~}~define i32 @main() {~  ret i32 1~}\trule 7 2:1
@g1 = global [0 x i32] undef~@g2 = global i16 undef, align 32~@g3 = global { i32, i32, i8 } undef, align 4~define void @f() {~  load { i8, i32 }, ptr undef~  alloca [3 x i32], align 16~  ret void~}~define i32 @main() {~  ret i32 1~}\trule 7 2:1
%A = type { ptr, i32 }~@g1 = global %A undef, align 32~@g2 = global {} undef~define void @f() {~  load { i32, %A, i8 }, ptr undef, align 16~  store ptr undef, ptr undef~  ret void~}~define i32 @main() {~  ret i32 1~}\trule 7 2:1
%A = type { i16 }~%B = type {}~define void @f() {~  alloca { %B }, align 3~  ret void~}~define i32 @main() {~  ret i32 1~}\trule 7 4:3
%A = type { [3 x %B] }~%B = type { {} }~@g1 = global %A undef, align 0~@g2 = global ptr undef, align 3~define void @f() {~  load ptr, ptr undef~  store [2 x i32] undef, ptr undef, align 6~  ret void~}~define i32 @main() {~  ret i32 1~}\trule 7 3:1
%A = type { [0 x i32], ptr }~%B = type {}~@g1 = global %A undef, align 2~define void @f() {~  load { i8 }, ptr undef~  ret void~}~define i32 @main() {~  ret i32 1~}\trule 7 3:1
%B = type { [1 x i8], ptr }~%A = type {}~define void @f() {~  load [2 x i16], ptr undef, align 6~  store [0 x %B] undef, ptr undef, align 2~  ret void~}~define i32 @main() {~  ret i32 1~}\trule 7 4:3
%B = type { i32 }~%A = type {}~@g1 = global {} undef, align 3~@g2 = global { { %B } } undef, align 0~@g3 = global { { i32 }, { i32 } } undef~define void @f() {~  load %B, ptr undef, align 3~  ret void~}~define i32 @main() {~  ret i32 1~}\trule 7 3:1
%A = type {}~%B = type { ptr, [2 x i16] }~@g1 = global { [3 x ptr], i32, %B } undef~@g2 = global [3 x i32] undef, align 3~@g3 = global i8 undef, align 4294967295~define void @f() {~  store ptr undef, ptr undef, align 32~  alloca [3 x ptr], align 4294967295~  store %A undef, ptr undef, align 16~  ret void~}~define i32 @main() {~  ret i32 1~}\trule 6 5:1
%C = type { i32, { ptr, i8 } }~%B = type { %C, i16 }~%A = type { %C, { %C, %C, %B } }~define void @f() {~  store %A undef, ptr undef, align 0~  ret void~}~define i32 @main() {~  ret i32 1~}\trule 7 5:3
%C = type {}~%A = type { {} }~%B = type { i32, { %C, ptr, ptr } }~@g1 = global [0 x { i16, i8, i32 }] undef, align 3~@g2 = global %A undef~define void @f() {~  alloca { %B, %A }, align 3~  ret void~}~define i32 @main() {~  ret i32 1~}\trule 7 4:1
%B = type { [2 x i16] }~%A = type { %B }~@g1 = global {} undef, align 2~@g2 = global i8 undef, align 6~@g3 = global i8 undef, align 4~define void @f() {~  load [3 x %B], ptr undef, align 8~  load %A, ptr undef~  ret void~}~define i32 @main() {~  ret i32 1~}\trule 7 4:1
%A = type { %C, %C }~%C = type { { i8, i16, i16 }, ptr }~%B = type { i32, i16 }~define void @f() {~  alloca [0 x %B], align 0~  ret void~}~define i32 @main() {~  ret i32 1~}\trule 7 5:3
%A = type { { i32, ptr } }~@g1 = global %A undef~@g2 = global %A undef, align 16~@g3 = global {} undef, align 0~define void @f() {~  load {}, ptr undef, align 32~  ret void~}~define i32 @main() {~  ret i32 1~}\trule 7 4:1
@g1 = global { i32, i8 } undef, align 16~@g2 = global {} undef~define void @f() {~  store i16 undef, ptr undef, align 8~  alloca i8, align 8~  load i32, ptr undef, align 2~  ret void~}~define i32 @main() {~  ret i32 1~}\trule 7 6:3
%A = type { ptr, i16 }~@g1 = global [2 x [1 x ptr]] undef~define void @f() {~  load { %A }, ptr undef~  load [1 x i32], ptr undef, align 4~  load {}, ptr undef, align 32~  ret void~}~define i32 @main() {~  ret i32 1~}\trule 7 6:3
%A = type { %B, {} }~%B = type {}~%C = type { i32, { i32, i8, ptr } }~@g1 = global %C undef~@g2 = global [3 x %C] undef, align 3~define void @f() {~  store %A undef, ptr undef, align 8~  load [2 x %C], ptr undef~  alloca [3 x %A], align 4~  ret void~}~define i32 @main() {~  ret i32 1~}\trule 7 5:1
%C = type { i32 }~%B = type { i16 }~%A = type {}~@g1 = global %B undef, align 8~@g2 = global [0 x { i32 }] undef, align 1~@g3 = global %C undef, align 8~define void @f() {~  store { %A, ptr, i16 } undef, ptr undef~  ret void~}~define i32 @main() {~  ret i32 1~}\trule 7 5:1
%A = type {}~%C = type { [3 x i16] }~%B = type { ptr }~@g1 = global { { i8, i16 } } undef, align 8~@g2 = global %B undef, align 6~define i32 @main() {~  ret i32 1~}\trule 7 5:1
%C = type { { i8, i32 }, [1 x ptr] }~%A = type { %B }~%B = type { { i16 }, { i32 } }~@g1 = global %C undef, align 16~@g2 = global %B undef, align 32~define void @f() {~  alloca %C, align 4~  ret void~}~define i32 @main() {~  ret i32 1~}\trule 7 5:1
%B = type { i8, i32 }~%A = type {}~@g1 = global i32 undef, align 8~@g2 = global %A undef, align 16~define void @f() {~  store { %B, i8, %B } undef, ptr undef, align 4~  load ptr, ptr undef, align 2~  ret void~}~define i32 @main() {~  ret i32 1~}\trule 7 7:3
%C = type { i8 }~%A = type { {}, i8 }~%B = type { {}, {} }~@g1 = global [1 x { %A, ptr, %C }] undef, align 16~@g2 = global [1 x [3 x %B]] undef, align 8~define void @f() {~  store %A undef, ptr undef, align 3~  alloca i16~  alloca {}~  ret void~}~define i32 @main() {~  ret i32 1~}\trule 7 7:3
%A = type { i16 }~@g1 = global { %A, ptr, [1 x ptr] } undef, align 4~@g2 = global { {}, i16, { i8 } } undef~define void @f() {~  alloca %A~  alloca %A, align 4~  store ptr undef, ptr undef, align 0~  ret void~}~define i32 @main() {~  ret i32 1~}\trule 7 7:3
%B = type {}~%A = type { { %B } }~@g1 = global [2 x { %B }] undef, align 8~@g2 = global {} undef, align 4~define void @f() {~  store { ptr } undef, ptr undef~  load { %B, %B }, ptr undef, align 32~  store { %A } undef, ptr undef, align 16~  ret void~}~define i32 @main() {~  ret i32 1~}\trule 7 7:3
@g1 = global i8 undef, align 1~@g2 = global ptr undef, align 16~@g3 = global [1 x ptr] undef, align 4~define void @f() {~  alloca { i16, i8, i32 }, align 16~  store ptr undef, ptr undef, align 8~  alloca i8, align 4294967295~  ret void~}~define i32 @main() {~  ret i32 1~}\trule 7 7:3
%A = type {}~%C = type {}~%B = type { { i8, %C } }~@g1 = global { { ptr, %C, i16 } } undef, align 4~define void @f() {~  alloca { %A }, align 16~  store %C undef, ptr undef, align 2~  store { %B, i8 } undef, ptr undef, align 6~  ret void~}~define i32 @main() {~  ret i32 1~}\trule 7 8:3
%B = type {}~%C = type { [0 x i8] }~%A = type { { ptr, %B, %B }, [3 x i8] }~@g1 = global i16 undef, align 16~@g2 = global %B undef, align 16~define void @f() {~  store %C undef, ptr undef~  alloca [2 x %A], align 1~  ret void~}~define i32 @main() {~  ret i32 1~}\trule 7 8:3
%B = type { { i32 }, i8 }~%A = type { i8 }~%C = type { {} }~@g1 = global { ptr, i16, i16 } undef, align 16~@g2 = global [1 x %C] undef, align 8~@g3 = global %C undef, align 16~define void @f() {~  alloca [2 x i32], align 2~  ret void~}~define i32 @main() {~  ret i32 1~}\trule 7 8:3";

#[test]
fn alignments_of_globals_and_instructions(rt: HostRuntime) -> Result<(), Fail> {
    assert_eq!(rt; differences(rt.alloc(), ALIGNMENTS)?.as_str(), "");
    Ok(())
}

/// Functions whose terminators lead to the entry block, or to all blocks but that.
const ENTRIES: &str = "define void @f() {~b0:~  ret void~}~define i32 @main() {~  ret i32 1~}\tvalid
define void @f() {~b0:~  br label %b0~}~define i32 @main() {~  ret i32 1~}\trule 12 3:3
define void @f() {~b0:~  br label %b1~b1:~  ret void~}~define i32 @main() {~  ret i32 1~}\tvalid
define void @f() {~b0:~  br label %b1~b1:~  br label %b0~}~define i32 @main() {~  ret i32 1~}\trule 12 5:3
define void @f() {~b0:~  br i1 true, label %b1, label %b1~b1:~  br label %b2~b2:~  br i1 true, label %b1, label %b0~}~define i32 @main() {~  ret i32 1~}\trule 12 7:3
define void @f() {~b0:~  br i1 true, label %b1, label %b2~b1:~  switch i32 1, label %b2 [ i32 0, label %b2 i32 1, label %b1 ]~b2:~  ret void~}~define i32 @main() {~  ret i32 1~}\tvalid
define void @f() {~b0:~  br label %b1~b1:~  br label %b2~b2:~  switch i32 1, label %b1 [ i32 0, label %b1 i32 1, label %b0 ]~}~define i32 @main() {~  ret i32 1~}\trule 12 7:3
define void @f() {~b0:~  br label %b1~b1:~  switch i32 1, label %b2 [ i32 0, label %b1 i32 1, label %b1 i32 2, label %b1 ]~b2:~  br label %b2~}~define i32 @main() {~  ret i32 1~}\tvalid
define void @f() {~b0:~  br i1 true, label %b1, label %b1~b1:~  br i1 true, label %b0, label %b1~}~define i32 @main() {~  ret i32 1~}\trule 12 5:3
define void @f() {~b0:~  br label %b1~b1:~  switch i32 1, label %b0 [ i32 0, label %b1 i32 1, label %b1 i32 2, label %b1 ]~}~define i32 @main() {~  ret i32 1~}\trule 12 5:3
define void @f() {~b0:~  ret void~b1:~  br label %b0~b2:~  ret void~b3:~  switch i32 1, label %b1 [ i32 0, label %b4 i32 1, label %b2 i32 2, label %b4 ]~b4:~  br i1 true, label %b4, label %b0~}~define i32 @main() {~  ret i32 1~}\trule 12 5:3
define void @f() {~b0:~  br i1 true, label %b0, label %b2~b1:~  br label %b3~b2:~  ret void~b3:~  ret void~}~define i32 @main() {~  ret i32 1~}\trule 12 3:3
define void @f() {~b0:~  br i1 true, label %b1, label %b1~b1:~  switch i32 1, label %b0 [ i32 0, label %b1 i32 1, label %b0 ]~}~define i32 @main() {~  ret i32 1~}\trule 12 5:3
define void @f() {~b0:~  br i1 true, label %b1, label %b1~b1:~  ret void~b2:~  switch i32 1, label %b2 [ i32 0, label %b2 i32 1, label %b2 ]~}~define i32 @main() {~  ret i32 1~}\tvalid
define void @f() {~b0:~  br label %b1~b1:~  ret void~b2:~  ret void~b3:~  br i1 true, label %b3, label %b4~b4:~  ret void~}~define i32 @main() {~  ret i32 1~}\tvalid
define void @f() {~b0:~  br i1 true, label %b0, label %b1~b1:~  br i1 true, label %b4, label %b2~b2:~  br label %b1~b3:~  br label %b1~b4:~  br label %b1~}~define i32 @main() {~  ret i32 1~}\trule 12 3:3
define void @f() {~b0:~  ret void~b1:~  ret void~b2:~  ret void~}~define i32 @main() {~  ret i32 1~}\tvalid
define void @f() {~b0:~  br i1 true, label %b2, label %b3~b1:~  br i1 true, label %b0, label %b3~b2:~  ret void~b3:~  br i1 true, label %b3, label %b2~}~define i32 @main() {~  ret i32 1~}\trule 12 5:3
define void @f() {~b0:~  br label %b0~b1:~  br i1 true, label %b3, label %b3~b2:~  br label %b3~b3:~  br label %b3~}~define i32 @main() {~  ret i32 1~}\trule 12 3:3
define void @f() {~b0:~  br label %b1~b1:~  br label %b2~b2:~  br i1 true, label %b2, label %b2~}~define i32 @main() {~  ret i32 1~}\tvalid
define void @f() {~b0:~  br i1 true, label %b0, label %b0~b1:~  br label %b2~b2:~  br label %b2~}~define i32 @main() {~  ret i32 1~}\trule 12 3:3
define void @f() {~b0:~  br label %b1~b1:~  br i1 true, label %b1, label %b1~b2:~  br i1 true, label %b3, label %b1~b3:~  ret void~}~define i32 @main() {~  ret i32 1~}\tvalid
define void @f() {~b0:~  br i1 true, label %b1, label %b1~b1:~  switch i32 1, label %b1 [ i32 0, label %b0 i32 1, label %b1 ]~}~define i32 @main() {~  ret i32 1~}\trule 12 5:3
define void @f() {~b0:~  ret void~b1:~  br label %b3~b2:~  br label %b1~b3:~  br i1 true, label %b0, label %b0~b4:~  ret void~}~define i32 @main() {~  ret i32 1~}\trule 12 9:3
define void @f() {~b0:~  br label %b2~b1:~  ret void~b2:~  br i1 true, label %b0, label %b1~}~define i32 @main() {~  ret i32 1~}\trule 12 7:3
define void @f() {~b0:~  br label %b1~b1:~  switch i32 1, label %b1 [ i32 0, label %b1 i32 1, label %b0 i32 2, label %b0 ]~}~define i32 @main() {~  ret i32 1~}\trule 12 5:3
define void @f() {~b0:~  switch i32 1, label %b0 [ i32 0, label %b0 i32 1, label %b0 i32 2, label %b0 ]~}~define i32 @main() {~  ret i32 1~}\trule 12 3:3
define void @f() {~b0:~  br i1 true, label %b0, label %b0~}~define i32 @main() {~  ret i32 1~}\trule 12 3:3";

#[test]
fn the_entry_has_no_predecessor(rt: HostRuntime) -> Result<(), Fail> {
    assert_eq!(rt; differences(rt.alloc(), ENTRIES)?.as_str(), "");
    Ok(())
}

/// Every instruction and terminator with operands and results of good types, many functions in a module, and then with wrong ones.
const TYPES: &str =
    "define void @f0() {~  ret void~}~define i32 @f1() {~  ret i32 1~}~define void @f2(i32 %r0, ptr %r1) {~  ret void~}~define i32 @f3(i32 %r0) {~  br i1 true, label %b1, label %b1~b1:~  ret i32 %r0~}~define ptr @f4(ptr %r0) {~  ret ptr %r0~}~define ptr @f5(ptr %r0) {~  ret ptr getelementptr ({ i32, [2 x i32] }, ptr @g, i32 0, i32 1)~}~define i32 @f6() {~  ret i32 poison~}~define ptr @f7() {~  ret ptr null~}~define i32 @main() {~  ret i32 1~}~@g = global i32 1\tvalid
define void @f0(i32 %r0) {~  %r1 = add i32 %r0, 1~  ret void~}~define void @f1(i32 %r0, ptr %r1) {~  %r2 = icmp eq i32 %r0, 1~  %r3 = icmp eq ptr %r1, null~  ret void~}~define void @f2(i1 %r0) {~  %r1 = select i1 %r0, i32 1, i32 5~  ret void~}~define void @f3(i1 %r0, ptr %r1) {~  %r2 = select i1 %r0, ptr %r1, ptr @g~  ret void~}~define void @f4(i1 %r0, i32 %r1) {~  %r2 = select i1 %r0, i32 %r1, i32 %r1~  %r3 = add i32 %r2, %r1~  ret void~}~define i32 @f5(i32 %r0, i32 %r1) {~  %r2 = add i32 %r0, %r1~  %r3 = add i32 %r2, %r0~  %r4 = icmp eq i32 %r3, %r2~  %r5 = select i1 %r4, i32 %r3, i32 %r2~  ret i32 %r5~}~define i32 @main() {~  ret i32 1~}~@g = global i32 1\tvalid
define void @f0(i8 %r0) {~  %r1 = zext i8 %r0 to i32~  ret void~}~define void @f1(i8 %r0) {~  %r1 = sext i8 %r0 to i16~  ret void~}~define void @f2(i32 %r0) {~  %r1 = trunc i32 %r0 to i8~  ret void~}~define void @f3(i1 %r0) {~  %r1 = sext i1 %r0 to i32~  %r2 = add i32 %r1, 1~  ret void~}~define void @f4() {~  %r0 = alloca i32~  ret void~}~define void @f5() {~  %r0 = alloca [2 x i32], i32 2~  ret void~}~define void @f6() {~  %r0 = alloca i32~  %r1 = load i32, ptr %r0~  ret void~}~define void @f7(ptr %r0) {~  %r1 = load ptr, ptr %r0~  %r2 = load i8, ptr %r1~  ret void~}~define void @f8(ptr %r0) {~  store i32 1, ptr %r0~  ret void~}~define void @f9(ptr %r0) {~  store ptr @g, ptr getelementptr (i8, ptr @g, i32 4)~  ret void~}~define void @f10(ptr %r0) {~  store ptr getelementptr ({ i32, [2 x i32] }, ptr @g, i32 0, i32 1), ptr %r0~  store ptr getelementptr ([2 x i32], ptr @g, i32 0, i8 1), ptr %r0~  store ptr getelementptr (%q, ptr @g, i32 0, i32 1, i1 1), ptr %r0~  ret void~}~define i32 @main() {~  ret i32 1~}~%q = type %m~%m = type { i32, [2 x i32] }~@g = global i32 1\tvalid
define void @f0(ptr %r0) {~  %r1 = getelementptr i8, ptr %r0, i32 1~  ret void~}~define void @f1(ptr %r0) {~  %r1 = getelementptr i8, ptr %r0~  ret void~}~define void @f2(ptr %r0) {~  %r1 = getelementptr i8, ptr %r0, i16 1~  ret void~}~define void @f3(ptr %r0) {~  %r1 = getelementptr [2 x i32], ptr %r0, i32 1, i8 1~  ret void~}~define void @f4(ptr %r0, i32 %r1) {~  %r2 = getelementptr [2 x i32], ptr %r0, i32 %r1, i32 %r1~  ret void~}~define void @f5(ptr %r0) {~  %r1 = getelementptr [2 x i32], ptr %r0, i32 1, i32 undef~  ret void~}~define void @f6(ptr %r0) {~  %r1 = getelementptr { i32, [2 x i32] }, ptr %r0, i32 1, i32 1~  ret void~}~define void @f7(ptr %r0) {~  %r1 = getelementptr %m, ptr %r0, i32 1, i32 1, i32 1~  ret void~}~define void @f8(ptr %r0) {~  %r1 = getelementptr %q, ptr %r0, i32 1, i32 1, i1 1~  %r2 = load i32, ptr %r1~  ret void~}~define void @f9(ptr %r0, i32 %r1) {~  %r2 = getelementptr %q, ptr %r0, i32 %r1, i32 1, i32 %r1~  ret void~}~define void @f10(ptr %r0) {~  %r1 = getelementptr ptr, ptr %r0, i32 1~  ret void~}~define i32 @main() {~  ret i32 1~}~%q = type %m~%m = type { i32, [2 x i32] }\tvalid
define void @f0() {~b0:~  br label %b1~b1:~  %r0 = phi i32 [ 1, %b0 ]~  ret void~}~define void @f1() {~b0:~  br label %b1~b1:~  %r0 = phi ptr [ @g, %b0 ]~  ret void~}~define void @f2(i32 %r0) {~b0:~  br label %b1~b1:~  %r1 = phi i32 [ %r0, %b0 ]~  ret void~}~define void @f3() {~  call void @f3()~  ret void~}~define void @f4(i1 %r0) {~  br i1 %r0, label %end, label %end~end:~  unreachable~}~define void @f5() {~  br i1 true, label %end, label %end~end:~  unreachable~}~define void @f6(i32 %r0) {~  switch i32 %r0, label %end [ i32 1, label %end i32 5, label %end ]~end:~  unreachable~}~define void @f7(i32 %r0) {~  switch i32 %r0, label %end [ ]~end:~  unreachable~}~define i32 @main() {~  ret i32 1~}~@g = global i32 1\tvalid
define i32 @f() {~  ret void~}~define i32 @main() {~  ret i32 1~}\trule 13 2:3
define i32 @f() {~  ret i8 1~}~define i32 @main() {~  ret i32 1~}\trule 13 2:3
define void @f() {~  ret i32 1~}~define i32 @main() {~  ret i32 1~}\trule 13 2:3
define [2 x i32] @f() {~  unreachable~}~define i32 @main() {~  ret i32 1~}\trule 13 1:1
define %m @f() {~  unreachable~}~define i32 @main() {~  ret i32 1~}~%m = type { i32, [2 x i32] }\trule 13 1:1
define void @f([2 x i32] %r0, i32 %r1) {~  ret void~}~define i32 @main() {~  ret i32 1~}\trule 13 1:1
define void @f(i32 %r0) {~  %r1 = add i8 %r0, 1~  ret void~}~define i32 @main() {~  ret i32 1~}\trule 13 2:3
define void @f(ptr %r0) {~  %r1 = add ptr %r0, %r0~  ret void~}~define i32 @main() {~  ret i32 1~}\trule 13 2:3
define void @f() {~  %r0 = add i32 @g, 1~  ret void~}~define i32 @main() {~  ret i32 1~}~@g = global i32 1\trule 13 2:3
define void @f() {~  %r0 = add i32 1, null~  ret void~}~define i32 @main() {~  ret i32 1~}\trule 14 2:3
define void @f() {~  %r0 = add i32 true, undef~  ret void~}~define i32 @main() {~  ret i32 1~}\trule 14 2:3
define void @f(i32 %r0, i8 %r1) {~  %r2 = add i32 %r0, %r1~  ret void~}~define i32 @main() {~  ret i32 1~}\trule 13 2:3
define void @f(i32 %r0, ptr %r1) {~  %r2 = icmp eq ptr %r0, %r1~  ret void~}~define i32 @main() {~  ret i32 1~}\trule 13 2:3
define void @f(i32 %r0) {~  %r1 = select i32 %r0, i32 1, i32 5~  ret void~}~define i32 @main() {~  ret i32 1~}\trule 13 2:3
define void @f(i1 %r0) {~  %r1 = select i1 %r0, i32 1, i8 1~  ret void~}~define i32 @main() {~  ret i32 1~}\trule 13 2:3
define void @f(i1 %r0, i8 %r1) {~  %r2 = select i1 %r0, i8 %r1, i8 %r1~  %r3 = add i32 %r2, 1~  ret void~}~define i32 @main() {~  ret i32 1~}\trule 13 3:3
define void @f(i32 %r0) {~  %r1 = zext i32 %r0 to i8~  ret void~}~define i32 @main() {~  ret i32 1~}\trule 13 2:3
define void @f(i8 %r0) {~  %r1 = zext i8 %r0 to i8~  ret void~}~define i32 @main() {~  ret i32 1~}\trule 13 2:3
define void @f(i8 %r0) {~  %r1 = trunc i8 %r0 to i32~  ret void~}~define i32 @main() {~  ret i32 1~}\trule 13 2:3
define void @f(ptr %r0) {~  %r1 = trunc ptr %r0 to i32~  ret void~}~define i32 @main() {~  ret i32 1~}\trule 13 2:3
define void @f(i8 %r0) {~  %r1 = zext i8 %r0 to ptr~  ret void~}~define i32 @main() {~  ret i32 1~}\trule 13 2:3
define void @f() {~  %r0 = alloca [2 x i32], ptr 2~  ret void~}~define i32 @main() {~  ret i32 1~}\trule 13 2:3
define void @f() {~  %r0 = alloca i32~  %r1 = load [2 x i32], ptr %r0~  ret void~}~define i32 @main() {~  ret i32 1~}\trule 13 3:3
define void @f(i32 %r0) {~  %r1 = load i32, i32 %r0~  ret void~}~define i32 @main() {~  ret i32 1~}\trule 13 2:3
define void @f(ptr %r0) {~  %r1 = load i32, ptr %r0~  %r2 = load i8, ptr %r1~  ret void~}~define i32 @main() {~  ret i32 1~}\trule 13 3:3
define void @f(ptr %r0) {~  store i32 1, i32 1~  ret void~}~define i32 @main() {~  ret i32 1~}\trule 13 2:3
define void @f(ptr %r0) {~  store i32 @g, ptr %r0~  ret void~}~define i32 @main() {~  ret i32 1~}~@g = global i32 1\trule 13 2:3
define void @f(ptr %r0) {~  store ptr getelementptr ({ i32, [2 x i32] }, ptr @g, i32 0, i8 1), ptr %r0~  ret void~}~define i32 @main() {~  ret i32 1~}~@g = global i32 1\trule 13 2:3
define void @f(ptr %r0) {~  store ptr getelementptr (i32, ptr @g, i32 0, i32 0), ptr %r0~  ret void~}~define i32 @main() {~  ret i32 1~}~@g = global i32 1\trule 13 2:3
define void @f(ptr %r0) {~  store ptr getelementptr ({ i32, [2 x i32] }, ptr @g, i32 0, i32 5), ptr %r0~  ret void~}~define i32 @main() {~  ret i32 1~}~@g = global i32 1\trule 13 2:3
define void @f(ptr %r0) {~  store i32 getelementptr (i8, ptr @g, i32 4), ptr %r0~  ret void~}~define i32 @main() {~  ret i32 1~}~@g = global i32 1\trule 13 2:3
define void @f(ptr %r0) {~  %r1 = getelementptr i8, ptr %r0, ptr %r0~  ret void~}~define i32 @main() {~  ret i32 1~}\trule 13 2:3
define void @f(ptr %r0) {~  %r1 = getelementptr i8, i32 1, i32 1~  ret void~}~define i32 @main() {~  ret i32 1~}\trule 13 2:3
define void @f(ptr %r0) {~  %r1 = getelementptr i8, ptr %r0, i32 1, i32 1~  ret void~}~define i32 @main() {~  ret i32 1~}\trule 13 2:3
define void @f(ptr %r0) {~  %r1 = getelementptr [2 x i32], ptr %r0, i32 1, i32 1, i32 1~  ret void~}~define i32 @main() {~  ret i32 1~}\trule 13 2:3
define void @f(ptr %r0) {~  %r1 = getelementptr { i32, [2 x i32] }, ptr %r0, i32 1, i8 1~  ret void~}~define i32 @main() {~  ret i32 1~}\trule 13 2:3
define void @f(ptr %r0) {~  %r1 = getelementptr { i32, [2 x i32] }, ptr %r0, i32 1, i32 5~  ret void~}~define i32 @main() {~  ret i32 1~}\trule 13 2:3
define void @f(ptr %r0) {~  %r1 = getelementptr { i32, [2 x i32] }, ptr %r0, i32 1, i32 -1~  ret void~}~define i32 @main() {~  ret i32 1~}\trule 13 2:3
define void @f(ptr %r0) {~  %r1 = getelementptr { i32, [2 x i32] }, ptr %r0, i32 1, i32 undef~  ret void~}~define i32 @main() {~  ret i32 1~}\trule 13 2:3
define void @f(ptr %r0, i32 %r1) {~  %r2 = getelementptr { i32, [2 x i32] }, ptr %r0, i32 1, i32 %r1~  ret void~}~define i32 @main() {~  ret i32 1~}\trule 13 2:3
define void @f(ptr %r0) {~  %r1 = getelementptr %q, ptr %r0, i32 1, i32 1, i32 1, i32 1~  ret void~}~define i32 @main() {~  ret i32 1~}~%q = type %m~%m = type { i32, [2 x i32] }\trule 13 2:3
define void @f() {~b0:~  br label %b1~b1:~  %r0 = phi ptr [ 1, %b0 ]~  ret void~}~define i32 @main() {~  ret i32 1~}\trule 13 5:3
define void @f() {~b0:~  br label %b1~b1:~  %r0 = phi [2 x i32] [ undef, %b0 ]~  ret void~}~define i32 @main() {~  ret i32 1~}\trule 13 5:3
define void @f() {~b0:~  br label %b1~b1:~  %r0 = phi i32 [ 1, %b0 ], [ true, %b1 ]~  %r1 = add i8 %r0, %r0~  br label %b1~}~define i32 @main() {~  ret i32 1~}\trule 13 6:3
define void @f(i32 %r0) {~b0:~  br label %b1~b1:~  %r1 = phi i8 [ %r0, %b0 ]~  ret void~}~define i32 @main() {~  ret i32 1~}\trule 13 5:3
define void @f() {~b0:~  br label %b1~b1:~  %r0 = phi ptr [ getelementptr ({ i32, [2 x i32] }, ptr @g, i32 0, i8 1), %b0 ]~  ret void~}~define i32 @main() {~  ret i32 1~}~@g = global i32 1\trule 13 5:3
define void @f() {~  %r0 = call i32 @f(i32 1, ptr @g)~  ret void~}~define i32 @main() {~  ret i32 1~}~@g = global i32 1\trule 15 2:3
define void @f() {~  %r0 = call [2 x i32] @f()~  ret void~}~define i32 @main() {~  ret i32 1~}\trule 13 2:3
define void @f() {~  %r0 = call ptr @f()~  ret void~}~define i32 @main() {~  ret i32 1~}\trule 15 2:3
define void @f(i32 %r0) {~  %r1 = call i32 @f(i8 %r0)~  ret void~}~define i32 @main() {~  ret i32 1~}\trule 13 2:3
define void @f() {~  %r0 = call i32 @f([2 x i32] 1)~  ret void~}~define i32 @main() {~  ret i32 1~}\trule 13 2:3
define void @f(i32 %r0) {~  br i32 %r0, label %end, label %end~end:~  unreachable~}~define i32 @main() {~  ret i32 1~}\trule 13 2:3
define void @f() {~  br i8 undef, label %end, label %end~end:~  unreachable~}~define i32 @main() {~  ret i32 1~}\trule 13 2:3
define void @f(i32 %r0) {~  switch i32 %r0, label %end [ i32 1, label %end i8 5, label %end ]~end:~  unreachable~}~define i32 @main() {~  ret i32 1~}\trule 13 2:3
define void @f(ptr %r0) {~  switch ptr %r0, label %end [ ]~end:~  unreachable~}~define i32 @main() {~  ret i32 1~}\trule 13 2:3
define void @f(i32 %r0) {~  switch i8 %r0, label %end [ i8 1, label %end ]~end:~  unreachable~}~define i32 @main() {~  ret i32 1~}\trule 13 2:3
define void @f(i32 %r0) {~  switch i32 %r0, label %end [ i32 1, label %end i32 @g, label %end ]~end:~  unreachable~}~define i32 @main() {~  ret i32 1~}~@g = global i32 1\trule 13 2:3
define i32 @f(i32 %r0) {~  ret i32 %r0~b1:~  ret i8 1~}~define i32 @main() {~  ret i32 1~}\trule 13 4:3
define i8 @f(i32 %r0) {~  ret i32 %r0~}~define i32 @main() {~  ret i32 1~}\trule 13 2:3
define i8 @f(i8 %r0) {~  ret i8 %r0~b1:~  ret void~}~define i32 @main() {~  ret i32 1~}\trule 13 4:3
define i32 @f() {~  ret i32 null~}~define i32 @main() {~  ret i32 1~}\trule 14 2:3
define void @f() {~  %r0 = add void 1, 1~  ret void~}~define i32 @main() {~  ret i32 1~}\trule 3 2:3
define void @f() {~  %r0 = add { i32, [2 x i32] } undef, undef~  ret void~}~define i32 @main() {~  ret i32 1~}\trule 13 2:3
define void @f() {~  %r0 = icmp eq [2 x i32] undef, undef~  ret void~}~define i32 @main() {~  ret i32 1~}\trule 13 2:3";

#[test]
fn types_agree(rt: HostRuntime) -> Result<(), Fail> {
    assert_eq!(rt; differences(rt.alloc(), TYPES)?.as_str(), "");
    Ok(())
}

/// Phis whose blocks are the predecessors, and those that have others; entries for one block with equal values, and with others;
/// at last addresses that are equal where their offsets are.
const PHIS: &str =
    "define void @f0() {~  ret void~}~define void @f1() {~b0:~  br label %b1~b1:~  %r0 = phi i32 [ 1, %b0 ]~  ret void~}~define void @f2() {~b0:~  br label %b1~b1:~  %r0 = phi i32 [ 1, %b0 ], [ 1, %b0 ]~  ret void~}~define void @f3(i1 %r0) {~b0:~  br i1 %r0, label %b1, label %b1~b1:~  %r1 = phi i32 [ 1, %b0 ]~  ret void~}~define void @f4(i1 %r0) {~b0:~  br i1 %r0, label %b1, label %b1~b1:~  %r1 = phi i32 [ 1, %b0 ], [ 1, %b0 ]~  ret void~}~define void @f5(i1 %r0) {~b0:~  br i1 %r0, label %b1, label %b2~b1:~  br label %b2~b2:~  %r1 = phi i32 [ 1, %b0 ], [ 5, %b1 ]~  ret void~}~define void @f6(i1 %r0) {~b0:~  br i1 %r0, label %b1, label %b2~b1:~  br label %b2~b2:~  %r1 = phi i32 [ 1, %b0 ], [ 5, %b1 ], [ 5, %b1 ], [ 1, %b0 ]~  ret void~}~define void @f7(i1 %r0) {~b0:~  br i1 %r0, label %b1, label %b2~b1:~  %r1 = phi i32 [ 1, %b0 ]~  br label %b2~b2:~  %r2 = phi i32 [ 1, %b0 ], [ 5, %b1 ]~  ret void~}~define i32 @main() {~  ret i32 1~}\tvalid
define void @f0(i1 %r0) {~b0:~  br label %b1~b1:~  %r1 = phi i32 [ 1, %b0 ], [ %r1, %b1 ]~  br i1 %r0, label %b1, label %b2~b2:~  ret void~}~define void @f1(i1 %r0) {~b0:~  br label %b1~b1:~  %r1 = phi i32 [ 1, %b0 ], [ 5, %b1 ]~  br i1 %r0, label %b1, label %b2~b2:~  %r2 = phi i32 [ %r1, %b1 ]~  ret void~}~define void @f2() {~b0:~  br label %b1~b1:~  %r0 = phi i32 [ 1, %b0 ], [ 5, %b2 ]~  ret void~b2:~  br label %b1~}~define void @f3() {~  ret void~b1:~  %r0 = phi i32 [ 1, %b2 ]~  ret void~b2:~  br label %b1~}~define void @f4() {~  ret void~b1:~  %r0 = phi i32 [ 1, %b1 ]~  br label %b1~}~define void @f5(i32 %r0) {~b0:~  switch i32 %r0, label %b1 [ i32 1, label %b1 i32 5, label %b1 ]~b1:~  %r1 = phi i32 [ 1, %b0 ]~  ret void~}~define void @f6(i32 %r0) {~b0:~  switch i32 %r0, label %b1 [ i32 1, label %b1 i32 5, label %b1 ]~b1:~  %r1 = phi i32 [ 1, %b0 ], [ 1, %b0 ], [ 1, %b0 ]~  ret void~}~define void @f7(i32 %r0) {~b0:~  switch i32 %r0, label %b2 [ i32 1, label %b1 i32 5, label %b2 ]~b1:~  br label %b2~b2:~  %r1 = phi i32 [ 1, %b0 ], [ 5, %b1 ]~  ret void~}~define i32 @main() {~  ret i32 1~}\tvalid
define void @f0(i32 %r0) {~b0:~  switch i32 %r0, label %b2 [ i32 1, label %b1 i32 5, label %b2 ]~b1:~  br label %b2~b2:~  %r1 = phi i32 [ 5, %b1 ], [ 1, %b0 ], [ 1, %b0 ]~  ret void~}~define void @f1(i1 %r0) {~b0:~  br i1 %r0, label %b1, label %b1~b1:~  %r1 = phi i1 [ true, %b0 ], [ 1, %b0 ]~  ret void~}~define void @f2(i1 %r0) {~b0:~  br i1 %r0, label %b1, label %b1~b1:~  %r1 = phi i1 [ true, %b0 ], [ -1, %b0 ]~  ret void~}~define void @f3(i1 %r0) {~b0:~  br i1 %r0, label %b1, label %b1~b1:~  %r1 = phi i1 [ 1, %b0 ], [ -1, %b0 ], [ true, %b0 ]~  ret void~}~define void @f4(i1 %r0) {~b0:~  br i1 %r0, label %b1, label %b1~b1:~  %r1 = phi i1 [ %r0, %b0 ], [ %r0, %b0 ]~  ret void~}~define void @f5(i1 %r0) {~b0:~  br i1 %r0, label %b1, label %b1~b1:~  %r1 = phi i8 [ -1, %b0 ], [ 255, %b0 ]~  ret void~}~define void @f6(i1 %r0) {~b0:~  br i1 %r0, label %b1, label %b1~b1:~  %r1 = phi i32 [ undef, %b0 ], [ undef, %b0 ]~  ret void~}~define void @f7(i1 %r0) {~b0:~  br i1 %r0, label %b1, label %b1~b1:~  %r1 = phi i32 [ poison, %b0 ], [ poison, %b0 ]~  ret void~}~define i32 @main() {~  ret i32 1~}\tvalid
define void @f0(i1 %r0) {~b0:~  br i1 %r0, label %b1, label %b1~b1:~  %r1 = phi ptr [ undef, %b0 ], [ null, %b0 ]~  ret void~}~define void @f1(i1 %r0) {~b0:~  br i1 %r0, label %b1, label %b1~b1:~  %r1 = phi ptr [ poison, %b0 ], [ poison, %b0 ]~  ret void~}~define void @f2(i1 %r0) {~b0:~  br i1 %r0, label %b1, label %b1~b1:~  %r1 = phi ptr [ @g, %b0 ], [ @g, %b0 ]~  ret void~}~define void @f3(i1 %r0, i32 %r1, i32 %r2) {~b0:~  br i1 %r0, label %b1, label %b1~b1:~  %r3 = phi i32 [ %r1, %b0 ], [ %r1, %b0 ]~  ret void~}~define void @f4(i1 %r0, i32 %r1) {~b0:~  br label %b1~b1:~  %r2 = phi i32 [ poison, %b0 ], [ 5, %b1 ], [ 5, %b1 ]~  br i1 %r0, label %b1, label %b1~}~define void @f5(i1 %r0, i32 %r1) {~b0:~  br label %b1~b1:~  %r2 = phi i32 [ undef, %b0 ]~  %r3 = phi ptr [ @g, %b0 ]~  ret void~}~define void @f6(i1 %r0, i32 %r1) {~  ret void~b1:~  %r2 = phi i32 [ %r1, %b2 ]~  br label %b3~b2:~  br i1 %r0, label %b4, label %b1~b3:~  ret void~b4:~  br label %b4~}~define void @f7(i1 %r0, i32 %r1) {~  ret void~b1:~  br i1 %r0, label %b1, label %b1~b2:~  %r2 = phi i32 [ undef, %b2 ]~  %r3 = phi i32 [ undef, %b2 ]~  br label %b2~}~define i32 @main() {~  ret i32 1~}~@g = global i32 1\tvalid
define void @f0(i1 %r0, i32 %r1) {~  br label %b1~b1:~  ret void~b2:~  br label %b2~b3:~  %r2 = phi i32 [ 1, %b3 ]~  %r3 = phi i32 [ poison, %b3 ]~  br label %b3~}~define void @f1(i1 %r0, i32 %r1) {~  ret void~b1:~  %r2 = phi i32 [ poison, %b2 ]~  %r3 = phi i32 [ poison, %b2 ], [ poison, %b2 ]~  ret void~b2:~  br label %b1~}~define void @f2(i1 %r0, i32 %r1) {~b0:~  br label %b1~b1:~  %r2 = phi i32 [ undef, %b1 ], [ 5, %b0 ]~  br i1 %r0, label %b1, label %b1~}~define void @f3(i1 %r0, i32 %r1) {~b0:~  br label %b1~b1:~  %r2 = phi i32 [ 1, %b0 ], [ poison, %b1 ]~  %r3 = phi i32 [ undef, %b1 ], [ poison, %b0 ]~  br label %b1~}~define void @f4(i1 %r0, i32 %r1) {~b0:~  br i1 %r0, label %b1, label %b1~b1:~  %r2 = phi i32 [ poison, %b0 ], [ %r1, %b1 ]~  %r3 = phi i32 [ poison, %b1 ], [ 5, %b0 ], [ 5, %b0 ]~  br label %b1~}~define void @f5(i1 %r0, i32 %r1) {~  ret void~b1:~  %r2 = phi i32 [ poison, %b2 ]~  ret void~b2:~  br label %b1~b3:~  ret void~}~define void @f6(i1 %r0, i32 %r1) {~  br label %b1~b1:~  br i1 %r0, label %b1, label %b2~b2:~  %r2 = phi i32 [ 5, %b2 ], [ %r1, %b1 ]~  br i1 %r0, label %b2, label %b1~}~define void @f7(i1 %r0, i32 %r1) {~b0:~  br i1 %r0, label %b2, label %b2~b1:~  br label %b1~b2:~  %r2 = phi i32 [ poison, %b2 ], [ 1, %b0 ], [ poison, %b2 ]~  br i1 %r0, label %b1, label %b2~}~define i32 @main() {~  ret i32 1~}\tvalid
define void @f() {~b0:~  %r0 = phi i32 [ 1, %b0 ]~  ret void~}~define i32 @main() {~  ret i32 1~}\trule 16 3:3
define void @f() {~  br label %b1~b1:~  %r0 = phi i32 [ 1, %b1 ]~  ret void~}~define i32 @main() {~  ret i32 1~}\trule 16 4:3
define void @f() {~b0:~  br label %b1~b1:~  %r0 = phi i32 [ 1, %b0 ], [ 5, %b0 ]~  ret void~}~define i32 @main() {~  ret i32 1~}\trule 16 5:3
define void @f(i1 %r0) {~b0:~  br i1 %r0, label %b1, label %b1~b1:~  %r1 = phi i32 [ 1, %b0 ], [ 5, %b0 ]~  ret void~}~define i32 @main() {~  ret i32 1~}\trule 16 5:3
define void @f(i1 %r0) {~b0:~  br i1 %r0, label %b1, label %b2~b1:~  br label %b2~b2:~  %r1 = phi i32 [ 1, %b0 ]~  ret void~}~define i32 @main() {~  ret i32 1~}\trule 16 7:3
define void @f(i1 %r0) {~  br i1 %r0, label %b1, label %b2~b1:~  br label %b2~b2:~  %r1 = phi i32 [ 5, %b1 ]~  ret void~}~define i32 @main() {~  ret i32 1~}\trule 16 6:3
define void @f(i1 %r0) {~b0:~  br i1 %r0, label %b1, label %b2~b1:~  br label %b2~b2:~  %r1 = phi i32 [ 1, %b0 ], [ 5, %b1 ], [ 1, %b1 ]~  ret void~}~define i32 @main() {~  ret i32 1~}\trule 16 7:3
define void @f(i1 %r0) {~b0:~  br i1 %r0, label %b1, label %b2~b1:~  br label %b2~b2:~  %r1 = phi i32 [ 1, %b1 ], [ 5, %b0 ]~  %r2 = phi i32 [ 1, %b1 ], [ 5, %b1 ]~  %r3 = phi i32 [ 1, %b0 ], [ 5, %b0 ]~  ret void~}~define i32 @main() {~  ret i32 1~}\trule 16 8:3
define void @f(i1 %r0) {~b0:~  br i1 %r0, label %b1, label %b2~b1:~  br label %b2~b2:~  %r1 = phi i32 [ 1, %b1 ], [ 5, %b0 ]~  %r2 = phi i32 [ 1, %b1 ], [ 5, %b0 ], [ 1, %b2 ]~  ret void~}~define i32 @main() {~  ret i32 1~}\trule 16 8:3
define void @f(i1 %r0) {~b0:~  br label %b1~b1:~  %r1 = phi i32 [ 1, %b0 ]~  br i1 %r0, label %b1, label %b2~b2:~  ret void~}~define i32 @main() {~  ret i32 1~}\trule 16 5:3
define void @f(i1 %r0) {~b0:~  br label %b1~b1:~  %r1 = phi i32 [ 1, %b0 ], [ 5, %b1 ]~  br i1 %r0, label %b1, label %b2~b2:~  %r2 = phi i32 [ %r1, %b1 ], [ 1, %b0 ]~  ret void~}~define i32 @main() {~  ret i32 1~}\trule 16 8:3
define void @f() {~b0:~  br label %b1~b1:~  %r0 = phi i32 [ 1, %b0 ]~  ret void~b2:~  br label %b1~}~define i32 @main() {~  ret i32 1~}\trule 16 5:3
define void @f() {~b0:~  ret void~b1:~  %r0 = phi i32 [ 1, %b0 ], [ 1, %b1 ]~  br label %b1~}~define i32 @main() {~  ret i32 1~}\trule 16 5:3
define void @f(i32 %r0) {~b0:~  switch i32 %r0, label %b1 [ i32 1, label %b1 i32 5, label %b1 ]~b1:~  %r1 = phi i32 [ 1, %b0 ], [ 5, %b0 ], [ 1, %b0 ]~  ret void~}~define i32 @main() {~  ret i32 1~}\trule 16 5:3
define void @f(i32 %r0) {~b0:~  switch i32 %r0, label %b2 [ i32 1, label %b1 i32 5, label %b2 ]~b1:~  br label %b2~b2:~  %r1 = phi i32 [ 1, %b0 ], [ 1, %b0 ]~  ret void~}~define i32 @main() {~  ret i32 1~}\trule 16 7:3
define void @f(i1 %r0) {~b0:~  br i1 %r0, label %b1, label %b1~b1:~  %r1 = phi i1 [ true, %b0 ], [ undef, %b0 ]~  ret void~}~define i32 @main() {~  ret i32 1~}\trule 16 5:3
define void @f(i1 %r0) {~b0:~  br i1 %r0, label %b1, label %b1~b1:~  %r1 = phi i1 [ %r0, %b0 ], [ true, %b0 ]~  ret void~}~define i32 @main() {~  ret i32 1~}\trule 16 5:3
define void @f(i1 %r0) {~b0:~  br i1 %r0, label %b1, label %b1~b1:~  %r1 = phi i16 [ -1, %b0 ], [ 255, %b0 ]~  ret void~}~define i32 @main() {~  ret i32 1~}\trule 16 5:3
define void @f(i1 %r0) {~b0:~  br i1 %r0, label %b1, label %b1~b1:~  %r1 = phi i32 [ undef, %b0 ], [ poison, %b0 ]~  ret void~}~define i32 @main() {~  ret i32 1~}\trule 16 5:3
define void @f(i1 %r0) {~b0:~  br i1 %r0, label %b1, label %b1~b1:~  %r1 = phi ptr [ null, %b0 ], [ poison, %b0 ]~  ret void~}~define i32 @main() {~  ret i32 1~}\trule 16 5:3
define void @f(i1 %r0) {~b0:~  br i1 %r0, label %b1, label %b1~b1:~  %r1 = phi ptr [ null, %b0 ], [ @g, %b0 ]~  ret void~}~define i32 @main() {~  ret i32 1~}~@g = global i32 1\trule 16 5:3
define void @f(i1 %r0, i32 %r1, i32 %r2) {~b0:~  br i1 %r0, label %b1, label %b1~b1:~  %r3 = phi i32 [ %r1, %b0 ], [ %r2, %b0 ]~  ret void~}~define i32 @main() {~  ret i32 1~}\trule 16 5:3
define void @f(i1 %r0, i32 %r1, i32 %r2) {~b0:~  br i1 %r0, label %b1, label %b1~b1:~  %r3 = phi i32 [ %r1, %b0 ], [ 1, %b0 ]~  ret void~}~define i32 @main() {~  ret i32 1~}\trule 16 5:3
define void @f(i1 %r0, ptr %r1, ptr %r2) {~b0:~  br i1 %r0, label %b1, label %b1~b1:~  %r3 = phi ptr [ %r1, %b0 ], [ %r2, %b0 ], [ null, %b0 ]~  ret void~}~define i32 @main() {~  ret i32 1~}\trule 16 5:3
define void @f(i1 %r0, i32 %r1) {~  br i1 %r0, label %b1, label %b2~b1:~  br label %b3~b2:~  br label %b3~b3:~  %r2 = phi i32 [ %r1, %b1 ], [ 1, %b2 ]~  %r3 = phi i32 [ %r1, %b2 ]~  ret void~}~define i32 @main() {~  ret i32 1~}\trule 16 9:3
define void @f(i1 %r0, i32 %r1) {~b0:~  br i1 %r0, label %b1, label %b2~b1:~  br label %b3~b2:~  br label %b3~b3:~  %r2 = phi i32 [ %r1, %b1 ], [ 1, %b2 ], [ 1, %b2 ], [ %r1, %b1 ]~  %r3 = phi i32 [ %r1, %b2 ], [ %r1, %b1 ], [ 1, %b0 ]~  ret void~}~define i32 @main() {~  ret i32 1~}\trule 16 10:3
define void @f(i1 %r0, i32 %r1) {~b0:~  br i1 %r0, label %b1, label %b2~b1:~  %r2 = phi i32 [ 1, %b0 ]~  br label %b3~b2:~  %r3 = phi i32 [ 1, %b0 ], [ 1, %b0 ]~  br label %b3~b3:~  %r4 = phi i32 [ %r2, %b1 ], [ %r3, %b1 ]~  ret void~}~define i32 @main() {~  ret i32 1~}\trule 16 11:3
define void @f(i1 %r0, i32 %r1) {~b0:~  br i1 %r0, label %b1, label %b1~b1:~  %r2 = phi i32 [ undef, %b1 ], [ undef, %b0 ], [ 5, %b1 ]~  switch i32 %r1, label %b1 [ i32 1, label %b1 i32 5, label %b1 ]~}~define i32 @main() {~  ret i32 1~}\trule 16 5:3
define void @f(i1 %r0, i32 %r1) {~b0:~  br label %b1~b1:~  %r2 = phi i32 [ undef, %b0 ]~  %r3 = phi i32 [ 5, %b1 ], [ 5, %b1 ], [ %r1, %b0 ]~  br i1 %r0, label %b1, label %b1~}~define i32 @main() {~  ret i32 1~}\trule 16 5:3
define void @f(i1 %r0, i32 %r1) {~b0:~  switch i32 %r1, label %b1 [ i32 1, label %b1 i32 5, label %b1 ]~b1:~  %r2 = phi i32 [ 1, %b0 ], [ 1, %b0 ], [ poison, %b1 ], [ undef, %b1 ]~  br label %b1~}~define i32 @main() {~  ret i32 1~}\trule 16 5:3
define void @f(i1 %r0, i32 %r1) {~  br label %b2~b1:~  br label %b3~b2:~  %r2 = phi i32 [ undef, %b2 ], [ 1, %b3 ]~  br label %b2~b3:~  br i1 %r0, label %b2, label %b3~}~define i32 @main() {~  ret i32 1~}\trule 16 6:3
define void @f(i1 %r0, i32 %r1) {~b0:~  br label %b1~b1:~  %r2 = phi i32 [ poison, %b0 ], [ 5, %b3 ], [ %r1, %b2 ]~  ret void~b2:~  br i1 %r0, label %b3, label %b3~b3:~  switch i32 %r1, label %b3 [ i32 1, label %b1 i32 5, label %b3 ]~}~define i32 @main() {~  ret i32 1~}\trule 16 5:3
define void @f(i1 %r0, i32 %r1) {~  br i1 %r0, label %b1, label %b3~b1:~  br label %b2~b2:~  %r2 = phi i32 [ 5, %b1 ], [ 5, %b1 ]~  br label %b3~b3:~  %r3 = phi ptr [ null, %b2 ], [ null, %b2 ]~  ret void~}~define i32 @main() {~  ret i32 1~}\trule 16 9:3
define void @f(i1 %r0, i32 %r1) {~b0:~  br label %b1~b1:~  %r2 = phi i32 [ poison, %b0 ]~  %r3 = phi i32 [ 1, %b0 ]~  ret void~b2:~  %r4 = phi i32 [ undef, %b2 ], [ poison, %b2 ]~  br label %b2~}~define i32 @main() {~  ret i32 1~}\trule 16 9:3
define void @f(i1 %r0, i32 %r1) {~b0:~  br i1 %r0, label %b1, label %b3~b1:~  ret void~b2:~  switch i32 %r1, label %b3 [ i32 1, label %b2 i32 5, label %b2 ]~b3:~  %r2 = phi i32 [ 5, %b0 ], [ poison, %b2 ], [ undef, %b3 ], [ undef, %b0 ]~  br i1 %r0, label %b3, label %b1~}~define i32 @main() {~  ret i32 1~}\trule 16 9:3
define void @f(i1 %r0, i32 %r1) {~b0:~  ret void~b1:~  %r2 = phi i32 [ poison, %b1 ], [ 1, %b0 ]~  %r3 = phi i32 [ 5, %b1 ], [ 5, %b1 ], [ poison, %b0 ]~  br label %b1~}~define i32 @main() {~  ret i32 1~}\trule 16 5:3
define void @f(i1 %r0, i32 %r1) {~  br label %b1~b1:~  br label %b3~b2:~  %r2 = phi i32 [ undef, %b2 ]~  %r3 = phi i32 [ %r1, %b2 ]~  br label %b2~b3:~  %r4 = phi i32 [ poison, %b1 ], [ 5, %b3 ]~  br label %b1~}~define i32 @main() {~  ret i32 1~}\trule 16 10:3
define void @f(i1 %r0, i32 %r1) {~  br i1 %r0, label %b3, label %b3~b1:~  br i1 %r0, label %b3, label %b2~b2:~  %r2 = phi i32 [ 5, %b1 ], [ poison, %b3 ]~  br label %b3~b3:~  br label %b3~}~define i32 @main() {~  ret i32 1~}\trule 16 6:3
define void @f(i1 %c) {~e:~  br i1 %c, label %a, label %a~a:~  %x = phi ptr [ getelementptr (i8, ptr @g, i32 4), %e ], [ getelementptr (i32, ptr @g, i32 1), %e ]~  ret void~}~define i32 @main() {~  ret i32 1~}~@g = global [8 x i32] zeroinitializer~@h = global i8 0~%S = type { i8, i32 }\tvalid
define void @f(i1 %c) {~e:~  br i1 %c, label %a, label %a~a:~  %x = phi ptr [ getelementptr (%S, ptr @g, i32 0, i32 1), %e ], [ getelementptr ([2 x i16], ptr @g, i8 0, i16 2), %e ]~  ret void~}~define i32 @main() {~  ret i32 1~}~@g = global [8 x i32] zeroinitializer~@h = global i8 0~%S = type { i8, i32 }\tvalid
define void @f(i1 %c) {~e:~  br i1 %c, label %a, label %a~a:~  %x = phi ptr [ getelementptr (i32, ptr @g, i8 255), %e ], [ getelementptr (i32, ptr @g, i32 1073741823), %e ]~  ret void~}~define i32 @main() {~  ret i32 1~}~@g = global [8 x i32] zeroinitializer~@h = global i8 0~%S = type { i8, i32 }\tvalid
define void @f(i1 %c) {~e:~  br i1 %c, label %a, label %a~a:~  %x = phi ptr [ @g, %e ], [ getelementptr ([4 x i8], ptr @g), %e ]~  ret void~}~define i32 @main() {~  ret i32 1~}~@g = global [8 x i32] zeroinitializer~@h = global i8 0~%S = type { i8, i32 }\tvalid
define void @f(i1 %c) {~e:~  br i1 %c, label %a, label %a~a:~  %x = phi ptr [ getelementptr (i32, ptr @g, i32 -1), %e ], [ getelementptr (i32, ptr @g, i8 255), %e ]~  ret void~}~define i32 @main() {~  ret i32 1~}~@g = global [8 x i32] zeroinitializer~@h = global i8 0~%S = type { i8, i32 }\tvalid
define void @f(i1 %c) {~e:~  br i1 %c, label %a, label %a~a:~  %x = phi ptr [ getelementptr (i8, ptr @g, i32 4), %e ], [ @g, %e ]~  ret void~}~define i32 @main() {~  ret i32 1~}~@g = global [8 x i32] zeroinitializer~@h = global i8 0~%S = type { i8, i32 }\trule 16 5:3
define void @f(i1 %c) {~e:~  br i1 %c, label %a, label %a~a:~  %x = phi ptr [ getelementptr (i8, ptr @g, i32 4), %e ], [ getelementptr (i32, ptr @g, i32 4), %e ]~  ret void~}~define i32 @main() {~  ret i32 1~}~@g = global [8 x i32] zeroinitializer~@h = global i8 0~%S = type { i8, i32 }\trule 16 5:3
define void @f(i1 %c) {~e:~  br i1 %c, label %a, label %a~a:~  %x = phi ptr [ getelementptr (i32, ptr @g, i32 -1), %e ], [ getelementptr (i32, ptr @g, i32 255), %e ]~  ret void~}~define i32 @main() {~  ret i32 1~}~@g = global [8 x i32] zeroinitializer~@h = global i8 0~%S = type { i8, i32 }\trule 16 5:3
define void @f(i1 %c) {~e:~  br i1 %c, label %a, label %a~a:~  %x = phi ptr [ @g, %e ], [ @h, %e ]~  ret void~}~define i32 @main() {~  ret i32 1~}~@g = global [8 x i32] zeroinitializer~@h = global i8 0~%S = type { i8, i32 }\trule 16 5:3
define void @f(i1 %c) {~e:~  br i1 %c, label %a, label %a~a:~  %x = phi ptr [ getelementptr (i8, ptr @g), %e ], [ getelementptr (i8, ptr @h), %e ]~  ret void~}~define i32 @main() {~  ret i32 1~}~@g = global [8 x i32] zeroinitializer~@h = global i8 0~%S = type { i8, i32 }\trule 16 5:3
define void @f(i1 %c) {~e:~  br i1 %c, label %a, label %a~a:~  %x = phi ptr [ getelementptr (i8, ptr @g, i32 0), %e ], [ null, %e ]~  ret void~}~define i32 @main() {~  ret i32 1~}~@g = global [8 x i32] zeroinitializer~@h = global i8 0~%S = type { i8, i32 }\trule 16 5:3";

#[test]
fn entries_of_phis(rt: HostRuntime) -> Result<(), Fail> {
    assert_eq!(rt; differences(rt.alloc(), PHIS)?.as_str(), "");
    Ok(())
}
