use crate::texts::{lines_of, read, repeated};
use ir_core::{Block, Func, GlobalVar, Module};
use ir_lexer::LexFault;
use ir_reader::{ReadFault, Which};
use oi_base::{Place, Text};
use std::alloc::{AllocError, Global};
use std::test::Fail;

fn which(limit: Which) -> &'static str {
    match limit {
        Which::Functions => "limit functions",
        Which::Sites => "limit sites",
        Which::Params => "limit params",
        Which::Nesting => "limit nesting",
        Which::Length => "limit length",
    }
}

fn at(alloc: Global, place: Place, what: &str) -> Result<String, AllocError> {
    format!(in alloc; "{}:{} {what}", place.line, place.column)
}

fn lexical(alloc: Global, fault: LexFault) -> Result<String, AllocError> {
    match fault {
        LexFault::BadByte(place, _) => at(alloc, place, "byte"),
        LexFault::OpenString(place) => at(alloc, place, "string"),
        LexFault::LongNumber(place) => at(alloc, place, "number"),
        LexFault::NoMemory => format!(in alloc; "memory"),
    }
}

/// The fault of a text, as it is reported.
fn fault(alloc: Global, fault: ReadFault) -> Result<String, AllocError> {
    match fault {
        ReadFault::Lexical(fault) => lexical(alloc, fault),
        ReadFault::Syntax(place) => at(alloc, place, "syntax"),
        ReadFault::LeftOut(place) => at(alloc, place, "left out"),
        ReadFault::Limit(place, limit) => at(alloc, place, which(limit)),
        ReadFault::NoMemory => format!(in alloc; "memory"),
    }
}

fn said(alloc: Global, text: &[u8]) -> Result<String, AllocError> {
    match read(alloc, text) {
        Ok(_) => format!(in alloc; "ok"),
        Err(found) => fault(alloc, found),
    }
}

/// Texts of one token a word, and after each word whether the text may be cut there.
const FORMS: &str = "source_filename = \"a.c\"\tss
target datalayout = \"e\"\tsss
target triple = \"riscv32\"\tsss
attributes #0 = { noinline ( x [ y ] ) }\tsssssssssss
!llvm.ident = !{ !4 }\tssss
!0 = distinct ! { i32 1 , { } }\tssssssssss
%T = type { i32 , [ 2 x ptr ] , %U , void }\tsssssssssssssss
@g = internal unnamed_addr constant [ 2 x i8 ] c\"ab\" , align 2 , !dbg !3\tssssssssssossoss
@h = global ptr getelementptr inbounds ( %T , ptr @g , i32 0 , i32 1 )\tsssssssssssssssss
@i = private global { i8 , [ 1 x i1 ] } { i8 -1 , [ 1 x i1 ] [ i1 true ] }\tssssssssssssssssssssssssss
declare i32 @putchar ( i32 noundef ) nounwind #1 !srcloc !2 !3 = ! { }\tssssssooosossss
define internal fastcc noundef i32 @f ( i32 noundef %0 , ptr align 4 \"k\" = \"v\" %p ) local_unnamed_addr #0 !dbg !7 { ret i32 %0 }\tsssssssssssssssssssssssssss
define void @f ( ) { %x = add nuw nsw i32 %a , 1 ret void }\tsssssssssssssssss
define void @f ( ) { %x = icmp samesign ult i32 %a , -1 ret void }\tsssssssssssssssss
define void @f ( ) { %x = select i1 true , i32 %a , i32 undef ret void }\tsssssssssssssssssss
define void @f ( ) { %x = zext nneg i8 1 to i32 ret void }\tssssssssssssssss
define void @f ( ) { %x = alloca i32 , i32 2 , align 4 , !dbg !1 ret void }\tsssssssssssssssssssss
define void @f ( ) { alloca [ 3 x i8 ] ret void }\tssssssssssssss
define void @f ( ) { %x = load i32 , ptr %p , align 4 , !tbaa ! { } ret void }\tsssssssssssssssssssssss
define void @f ( ) { store i32 %a , ptr %p , align 4 ret void }\tsssssssssssssssss
define void @f ( ) { %x = getelementptr inbounds %T , ptr %p , i32 0 , i32 %a ret void }\tssssssssssssssssssssss
define void @f ( ) { %x = phi i32 [ 1 , %e ] , [ %a , %l ] , !dbg !3 ret void }\tssssssssssssssssssssssssss
define void @f ( ) { %x = tail call signext i32 @g ( i32 noundef %a , ptr align 4 %p , i32 align 4 ) nounwind #1 , !srcloc !1 ret void }\tssssssssssssssssssssssssssssssssss
define void @f ( ) { notail call void @h ( ) ret void }\tssssssssssssss
define void @f ( ) { call void @llvm.lifetime.start.p0 ( i64 4 , ptr nonnull %p ) #2 ret void }\tssssssssssssssssssss
define void @f ( ) { e: ret void }\tsssssssss
define void @f ( ) { e: ret void , !dbg !1 }\tssssssssssss
define void @f ( ) { e: ret i32 %a , !dbg !1 }\tsssssssssssss
define void @f ( ) { e: br label %b }\tssssssssss
define void @f ( ) { e: br i1 %c , label %b , label %d }\tssssssssssssssss
define void @f ( ) { e: switch i32 %a , label %d [ i32 1 , label %b i32 -2 , label %c ] , !prof ! { } }\tssssssssssssssssssssssssssssss
define void @f ( ) { e: unreachable }\tssssssss";

/// Texts, where `~` stands for a line's end, and what is said of them.
const FAULTS: &str = "@g = global i64 0\t1:13 left out
@g = global half 0\t1:13 left out
@g = global <2 x i8> zeroinitializer\t1:13 left out
@g = global i8* null\t1:15 left out
@g = external global i8\t1:6 left out
@g = linkonce_odr global i8 0\t1:6 left out
@a = alias i8, ptr @g\t1:6 left out
$c = comdat any\t1:1 syntax
module asm \"x\"\t1:1 left out
!DIFile = !{}\t1:1 left out
!0 = !DIFile()\t1:6 left out
attributes #x = { }\t1:12 left out
define i32 @f() {~%x = fadd i32 1, 2\t2:6 left out
define void @f() {~invoke void @g()\t2:1 left out
define void @f() {~fence acquire\t2:1 left out
define void @f(ptr byval(i8) %p) {\t1:20 left out
define void @f() {~%x = load volatile i8, ptr null\t2:11 left out
define void @f() {~%x = call i32 asm \"\", \"\"()\t2:15 left out
define void @f() #x {\t1:18 left out
define void @f() {~ret i32 7, !DIx !1\t2:12 left out
define i32 @f() personality ptr @p {\t1:17 left out
define i32 @f() {~%x = ptrtoint ptr null to i32\t2:6 left out
@g = addrspace(1) global i8 0\t1:6 left out
define void @f(...) {\t1:16 left out
declare half @f(i64, ...) #q\t1:27 left out
declare half @f(i64 byval, ...) nounwind\tok
define void @f(i08 %x) {\t1:16 left out
uselistorder i32 0, { 0 }\t1:1 left out
@g = global i8 blockaddress\t1:16 left out
@g = thread_local global i8 0\t1:6 left out
@g = global i8 \x01\t1:16 byte
@g = global i8 \"abc\t1:16 string
@g = global i8 1234567890123456789012345678901\t1:16 number
%\"\" = type { }\t1:1 byte
@ = global i8 0\t1:1 byte
%T = type { \x7f\t1:13 byte
declare void @f(\x02)\t1:17 byte
; comment \x03~%T = type { }\tok
x\t1:1 syntax
=\t1:1 syntax
}\t1:1 syntax
define\t1:7 syntax
define void\t1:12 syntax
define void @f\t1:15 syntax
define void @f( {\t1:18 syntax
define void @f(i8,) {\t1:19 syntax
define void @f() { }\t1:20 syntax
define void @f() {~l:~}\t3:1 syntax
define void @f() {~ret~}\t3:1 syntax
define void @f() {~ret i32 void~}\t2:9 syntax
define void @f() {~%x = store i8 0, ptr null\t2:6 syntax
define void @f() {~%x = call void @g()\t2:11 syntax
define void @f() {~%x = ret void\t2:6 syntax
define void @f() {~add i8 1\t2:9 syntax
define void @f() {~%x add i8 1, 2\t2:4 syntax
define void @f() {~br label 3\t2:10 syntax
define void @f() {~switch i8 1, label %d [ i8 1, label %b, ]\t2:39 syntax
define void @f() {~%x = phi i8~\t3:1 syntax
define void @f() {~%x = phi i8 [ 1, %a ], ret\t2:24 syntax
define void @f() {~%x = call i8 @llvm.lifetime.x()\t2:14 syntax
define void @f() {~%x = tail ret\t2:11 syntax
@g = constant internal i8 0\t1:15 syntax
@g = global i8\t1:15 syntax
@g = global i8 %x\t1:16 syntax
@g = global i8 0, align\t1:24 syntax
@g = global i8 0, align 1, align 2,\t1:36 syntax
%T = type\t1:10 syntax
%T = i8\t1:6 syntax
target datalayout \"e\"\t1:19 syntax
target x = \"e\"\t1:8 syntax
source_filename = c\"a\"\t1:19 syntax
attributes #0 = { ( } )\t1:21 syntax
attributes 0 = { }\t1:12 syntax
!0 = {}\t1:6 syntax
declare void\t1:13 syntax
declare void @f\t1:16 syntax
declare void @f()\tok
declare void @f() !dbg\t1:23 syntax
declare void @f() !a !b !c\t1:27 syntax
declare void @f() !a = !{}~!b !c\t2:4 syntax
!0 = !{~!1 = !{}}\tok
1:\t1:1 syntax
\"a\": x\t1:1 syntax
define void @f() noinline(1) \"a\"=\"b\" \"c\" align 4 true {~ret void~}\tok
define true void @f() {\t1:8 syntax
define void @f(i8 true) {\t1:19 syntax
define void @f() {~%x = call true i8 @g()\t2:11 syntax
define void @f() {~call void @g() true~ret void~}\tok
define void @f() {~call void @g() load~ret void~}\t3:1 syntax
define void @f() {~call void @g(i8 zeroext 1, i8 align 4, i8 align 4 5, i8 \"a\" 1, i8 #0 1)~ret void~}\tok
define void @f() {~call void @g(i8 align)~\t2:22 syntax
define void @f() {~call void @g(i8 %x %y)~\t2:20 syntax
define void @f() {~ret void 5~}\tok
define void @f() {~ret void %x~}\tok
define void @f() {~ret void %x = add i8 1, 2~ret void~}\tok
define void @f() {~ret void getelementptr (i8, ptr @g)~}\tok
define void @f() {~ret void getelementptr i8, ptr null~ret void~}\tok
define void @f() {~ret void getelementptr inbounds ret\t2:33 syntax
define void @f() {~ret void, !a !b 5~}\t2:17 syntax
define void @f() {~ret void 5 5~}\t2:12 syntax
define void @f() {~ret i8 5~l:~unreachable~}\tok
define void @f() {~unreachable~unreachable~}\tok
%T = type [1 x [1 x [1 x [1 x [1 x [1 x [1 x [1 x [1 x [1 x [1 x [1 x [1 x [1 x [1 x [1 x [1 x [1 x [1 x [1 x [1 x [1 x [1 x [1 x [1 x [1 x [1 x [1 x [1 x [1 x [1 x [1 x [1 x [1 x [1 x [1 x [1 x [1 x [1 x [1 x [1 x [1 x [1 x [1 x [1 x [1 x [1 x [1 x [1 x [1 x [1 x [1 x [1 x [1 x [1 x [1 x [1 x [1 x [1 x [1 x [1 x [1 x [1 x [1 x i8]]]]]]]]]]]]]]]]]]]]]]]]]]]]]]]]]]]]]]]]]]]]]]]]]]]]]]]]]]]]]]]]\tok
%T = type [1 x [1 x [1 x [1 x [1 x [1 x [1 x [1 x [1 x [1 x [1 x [1 x [1 x [1 x [1 x [1 x [1 x [1 x [1 x [1 x [1 x [1 x [1 x [1 x [1 x [1 x [1 x [1 x [1 x [1 x [1 x [1 x [1 x [1 x [1 x [1 x [1 x [1 x [1 x [1 x [1 x [1 x [1 x [1 x [1 x [1 x [1 x [1 x [1 x [1 x [1 x [1 x [1 x [1 x [1 x [1 x [1 x [1 x [1 x [1 x [1 x [1 x [1 x [1 x [1 x \t1:331 limit nesting
@g = global i8 [ i8 [ i8 [ i8 [ i8 [ i8 [ i8 [ i8 [ i8 [ i8 [ i8 [ i8 [ i8 [ i8 [ i8 [ i8 [ i8 [ i8 [ i8 [ i8 [ i8 [ i8 [ i8 [ i8 [ i8 [ i8 [ i8 [ i8 [ i8 [ i8 [ i8 [ i8 [ i8 [ i8 [ i8 [ i8 [ i8 [ i8 [ i8 [ i8 [ i8 [ i8 [ i8 [ i8 [ i8 [ i8 [ i8 [ i8 [ i8 [ i8 [ i8 [ i8 [ i8 [ i8 [ i8 [ i8 [ i8 [ i8 [ i8 [ i8 [ i8 [ i8 [ i8 [ i8 [ i8 [ i8 \t1:336 limit nesting
define void @f() {~call [1 x [1 x [1 x [1 x [1 x [1 x [1 x [1 x [1 x [1 x [1 x [1 x [1 x [1 x [1 x [1 x [1 x [1 x [1 x [1 x [1 x [1 x [1 x [1 x [1 x [1 x [1 x [1 x [1 x [1 x [1 x [1 x [1 x [1 x [1 x [1 x [1 x [1 x [1 x [1 x [1 x [1 x [1 x [1 x [1 x [1 x [1 x [1 x [1 x [1 x [1 x [1 x [1 x [1 x [1 x [1 x [1 x [1 x [1 x [1 x [1 x [1 x [1 x [1 x [1 x i8]]]]]]]]]]]]]]]]]]]]]]]]]]]]]]]]]]]]]]]]]]]]]]]]]]]]]]]]]]]]]]]] @llvm.lifetime.start()\t2:326 limit nesting
define void @f(i8, i8, i8, i8, i8, i8, i8, i8) {~unreachable~}\tok
define void @f(i8, i8, i8, i8, i8, i8, i8, i8,\t1:47 limit params
define void @f(i8, i8, i8, i8, i8, i8, i8, i8, half) {\t1:48 limit params
define void @f() {~call void @g(i8 1, i8 1, i8 1, i8 1, i8 1, i8 1, i8 1, i8 1, ) {\t2:62 limit params
define void @f() {~call void @g(i8 1, i8 1, i8 1, i8 1, i8 1, i8 1, i8 1, i8 1, \x01\t2:62 byte
%T = type [4294967295 x i8]\tok
@g = global i8 0, align 4294967295\tok
define void @f() {~%x = alloca i8, i8 4294967295\t2:30 syntax
define void @f() {~%x = alloca i8, align 4294967295\t2:33 syntax
define void @f() {~store i8 0, ptr null, align 4294967295\t2:39 syntax
define void @f(i8 align 4294967295) {\t1:38 syntax
%T = type [4294967296 x i8]\t1:12 limit length
@g = global i8 0, align 4294967296\t1:25 limit length
define void @f() {~%x = alloca i8, i8 4294967296\t2:20 limit length
define void @f() {~%x = alloca i8, align 4294967296\t2:23 limit length
define void @f() {~store i8 0, ptr null, align 4294967296\t2:29 limit length
define void @f(i8 align 4294967296) {\t1:38 syntax
%T = type [-1 x i8]\t1:12 limit length
@g = global i8 0, align -1\t1:25 limit length
define void @f() {~%x = alloca i8, i8 -1\t2:20 limit length
define void @f() {~%x = alloca i8, align -1\t2:23 limit length
define void @f() {~store i8 0, ptr null, align -1\t2:29 limit length
define void @f(i8 align -1) {\t1:30 syntax
%T = type i1~%T = type i8~%T = type i16~%T = type i32~%T = type ptr~%T = type void~%T = type %T~%T = type %\"a b\"~%T = type [3 x i8]~%T = type { }~%T = type { i8, void }~%T = type { [0 x ptr], %T }\tok
%T = type [\t1:12 syntax
%T = type [3\t1:13 syntax
%T = type [3 x\t1:15 syntax
%T = type [3 x i8\t1:18 syntax
%T = type [3 x i8,\t1:18 syntax
%T = type { i8, }\t1:17 syntax
%T = type { i8 i8 }\t1:16 syntax
%T = type { [0 x ptr], %T } x\t1:29 syntax
%T = type [x x i8]\t1:12 syntax
%T = type [1 x i8] i8\t1:20 syntax
%T = type x\t1:11 syntax
%T = type 7\t1:11 syntax
%T = type @a\t1:11 syntax
%T = type \"s\"\t1:11 syntax
%T = type [18446744073709551616 x i8]\t1:12 limit length
%T = type { { i32, { } }, [2 x { ptr }] } ,\t1:43 syntax
%T = type [1 x [1 x [1 x [1 x [1 x [1 x [1 x [1 x [1 x [1 x [1 x [1 x [1 x [1 x [1 x [1 x [1 x [1 x [1 x [1 x [1 x [1 x [1 x [1 x [1 x [1 x [1 x [1 x [1 x [1 x [1 x [1 x [1 x [1 x [1 x [1 x [1 x [1 x [1 x [1 x [1 x [1 x [1 x [1 x [1 x [1 x [1 x [1 x [1 x [1 x [1 x [1 x [1 x [1 x [1 x [1 x [1 x [1 x [1 x [1 x [1 x [1 x [1 x [1 x [1 x i8]]]]]]]]]]]]]]]]]]]]]]]]]]]]]]]]]]]]]]]]]]]]]]]]]]]]]]]]]]]]]]]]]\t1:331 limit nesting
%T = type [1 x [1 x [1 x [1 x [1 x [1 x [1 x [1 x [1 x [1 x [1 x [1 x [1 x [1 x [1 x [1 x [1 x [1 x [1 x [1 x [1 x [1 x [1 x [1 x [1 x [1 x [1 x [1 x [1 x [1 x [1 x [1 x [1 x [1 x [1 x [1 x [1 x [1 x [1 x [1 x [1 x [1 x [1 x [1 x [1 x [1 x [1 x [1 x [1 x [1 x [1 x [1 x [1 x [1 x [1 x [1 x [1 x [1 x [1 x [1 x [1 x [1 x [1 x [1 x %T]]]]]]]]]]]]]]]]]]]]]]]]]]]]]]]]]]]]]]]]]]]]]]]]]]]]]]]]]]]]]]]]\tok
%T = type [1 x [1 x [1 x [1 x [1 x [1 x [1 x [1 x [1 x [1 x [1 x [1 x [1 x [1 x [1 x [1 x [1 x [1 x [1 x [1 x [1 x [1 x [1 x [1 x [1 x [1 x [1 x [1 x [1 x [1 x [1 x [1 x [1 x [1 x [1 x [1 x [1 x [1 x [1 x [1 x [1 x [1 x [1 x [1 x [1 x [1 x [1 x [1 x [1 x [1 x [1 x [1 x [1 x [1 x [1 x [1 x [1 x [1 x [1 x [1 x [1 x [1 x [1 x [1 x {\t1:331 limit nesting
define void @f() {~ret i8 %x~ret i8 @g~ret i8 7~ret i8 -3~ret i8 true~ret i8 false~ret i8 null~ret i8 undef~ret i8 poison~ret i8 getelementptr (i8, ptr @g)~ret i8 getelementptr inbounds nuw nusw (%T, ptr @g, i32 1, i8 -2)~ret i8 getelementptr (i8, ptr @g, i32 4294967296)~}\tok
define void @f() {~ret i8 zeroinitializer~}\t2:8 syntax
define void @f() {~ret i8 getelementptr inbounds~}\t3:1 syntax
define void @f() {~ret i8 getelementptr (i8, i8 @g)~}\t2:27 syntax
define void @f() {~ret i8 getelementptr (i8, ptr null)~}\t2:31 syntax
define void @f() {~ret i8 getelementptr (i8, ptr @g,)~}\t2:34 syntax
define void @f() {~ret i8 getelementptr (i8, ptr @g, i32 %x)~}\t2:39 syntax
define void @f() {~ret i8 {~}\t2:8 syntax
define void @f() {~ret i8 [~}\t2:8 syntax
define void @f() {~ret i8 c\"a\"~}\t2:8 syntax
define void @f() {~ret i8 blockaddress~}\t2:8 left out
define void @f() {~ret i8 inrange~}\t2:8 left out
define void @f() {~ret i8 #0~}\t2:8 syntax
define void @f() {~ret i8 !DIx~}\t2:8 left out
define void @f() {~ret i8 !x~}\t2:8 syntax
define void @f() {~ret i8 ~}\t3:1 syntax
@g = global i8 @g~@g = global i8 7~@g = global i8 zeroinitializer~@g = global i8 c\"ab\\00\"~@g = global i8 undef~@g = global i8 [ ]~@g = global i8 { }~@g = global i8 [ i8 1 ]~@g = global i8 { i8 1, ptr @g, [2 x i8] c\"ab\", { } zeroinitializer }~@g = global i8 [i8 getelementptr (i8, ptr @g)]~@g = global i8 [ [1 x i8] [ i8 1 ], [1 x i8] zeroinitializer ]\tok
@g = global i8 [ i8 1, ]\t1:24 syntax
@g = global i8 [ i8 1, i8 2 ] x\t1:31 syntax
@g = global i8 { i8 }\t1:21 syntax
@g = global i8 { i8 1\t1:22 syntax
@g = global i8 addrspace\t1:16 left out
@g = global i8 [ i8 [ i8 [ i8 [ i8 [ i8 [ i8 [ i8 [ i8 [ i8 [ i8 [ i8 [ i8 [ i8 [ i8 [ i8 [ i8 [ i8 [ i8 [ i8 [ i8 [ i8 [ i8 [ i8 [ i8 [ i8 [ i8 [ i8 [ i8 [ i8 [ i8 [ i8 [ i8 [ i8 [ i8 [ i8 [ i8 [ i8 [ i8 [ i8 [ i8 [ i8 [ i8 [ i8 [ i8 [ i8 [ i8 [ i8 [ i8 [ i8 [ i8 [ i8 [ i8 [ i8 [ i8 [ i8 [ i8 [ i8 [ i8 [ i8 [ i8 [ i8 [ i8 [ i8 [ i8 1 ] ] ] ] ] ] ] ] ] ] ] ] ] ] ] ] ] ] ] ] ] ] ] ] ] ] ] ] ] ] ] ] ] ] ] ] ] ] ] ] ] ] ] ] ] ] ] ] ] ] ] ] ] ] ] ] ] ] ] ] ] ] ] ]\tok
@g = global i8 [ i8 [ i8 [ i8 [ i8 [ i8 [ i8 [ i8 [ i8 [ i8 [ i8 [ i8 [ i8 [ i8 [ i8 [ i8 [ i8 [ i8 [ i8 [ i8 [ i8 [ i8 [ i8 [ i8 [ i8 [ i8 [ i8 [ i8 [ i8 [ i8 [ i8 [ i8 [ i8 [ i8 [ i8 [ i8 [ i8 [ i8 [ i8 [ i8 [ i8 [ i8 [ i8 [ i8 [ i8 [ i8 [ i8 [ i8 [ i8 [ i8 [ i8 [ i8 [ i8 [ i8 [ i8 [ i8 [ i8 [ i8 [ i8 [ i8 [ i8 [ i8 [ i8 [ i8 [ i8 [ i8 1 ] ] ] ] ] ] ] ] ] ] ] ] ] ] ] ] ] ] ] ] ] ] ] ] ] ] ] ] ] ] ] ] ] ] ] ] ] ] ] ] ] ] ] ] ] ] ] ] ] ] ] ] ] ] ] ] ] ] ] ] ] ] ] ] ]\t1:336 limit nesting
@g = global i8 [ %T [ %T [ %T [ %T [ %T [ %T [ %T [ %T [ %T [ %T [ %T [ %T [ %T [ %T [ %T [ %T [ %T [ %T [ %T [ %T [ %T [ %T [ %T [ %T [ %T [ %T [ %T [ %T [ %T [ %T [ %T [ %T [ %T [ %T [ %T [ %T [ %T [ %T [ %T [ %T [ %T [ %T [ %T [ %T [ %T [ %T [ %T [ %T [ %T [ %T [ %T [ %T [ %T [ %T [ %T [ %T [ %T [ %T [ %T [ %T [ %T [ %T [ %T [ %T undef ] ] ] ] ] ] ] ] ] ] ] ] ] ] ] ] ] ] ] ] ] ] ] ] ] ] ] ] ] ] ] ] ] ] ] ] ] ] ] ] ] ] ] ] ] ] ] ] ] ] ] ] ] ] ] ] ] ] ] ] ] ] ] ]\tok";

/// Texts and what their modules hold: the names in order, and what is in no other table.
const NAMES: &str =
    "; ModuleID = 'a.c'~source_filename = \"a.c\"~target datalayout = \"e-m:e-p:32:32-i64:64-n32-S128\"~target triple = \"riscv32-unknown-unknown-elf\"~~%struct.P = type { i32, i32 }~~@p = internal global %struct.P { i32 3, i32 4 }, align 4~~; Function Attrs: noinline nounwind~define internal i32 @get(ptr noundef readonly %q) #0 {~entry:~  %0 = load i32, ptr %q, align 4, !tbaa !5~  ret i32 %0~}~~; Function Attrs: noinline nounwind~define dso_local i32 @main() local_unnamed_addr #0 {~entry:~  %call = tail call i32 @get(ptr noundef getelementptr inbounds (%struct.P, ptr @p, i32 0, i32 1)) #1~  ret i32 %call~}~~attributes #0 = { noinline nounwind \"frame-pointer\"=\"none\" }~attributes #1 = { nounwind }~~!llvm.module.flags = !{!0, !1}~!llvm.ident = !{!4}~~!0 = !{i32 1, !\"wchar_size\", i32 4}~!1 = !{i32 1, !\"target-abi\", !\"ilp32\"}~!4 = !{!\"clang version 18.1.0\"}~!5 = !{!6, !6, i64 0}~!6 = !{!\"int\", !7, i64 0}~!7 = !{!\"omnipotent char\", !8, i64 0}~!8 = !{!\"Simple C/C++ TBAA\"}~\tsymbols p get main; types struct.P; global internal 4; function internal noinline q entry 0 at 12:1 of 1; function noinline entry call at 19:1 of 1
define i32 @f(i32, i32 %7, ptr) {~%9 = add i32 %0, %7~%x = mul i32 %9, 2~add i32 1, 2~store i8 0, ptr null~call void @g()~call i32 @g()~ret i32 %x~br label %12~12:~unreachable~ret void~}\tsymbols f g; types; function 0 7 8 9 x 10 11 12 13 at 2:1 9:1 10:1 12:1 of 6 0 0 0
define void @f() {~ret void~ret void~}\tsymbols f; types; function 0 1 at 2:1 3:1 of 0 0
define void @f() {~%a = add i8 1, 1~ret void %a~ret void %b = add i8 1, 1~ret void~}\tsymbols f; types; function 0 a 1 2 b at 2:1 4:1 4:10 of 1 0 1
define void @f() {~%00012 = add i8 1, 1~%000000000000000000000000000000000000099 = add i8 1, 1~add i8 1, 1~ret void~}\tsymbols f; types; function 0 00012 000000000000000000000000000000000000099 13 at 2:1 of 3
define void @f() {~%999999999999999999999999999999 = add i8 1, 1~add i8 1, 1~add i8 1, 1~ret void~}\tsymbols f; types; function 0 999999999999999999999999999999 1000000000000000000000000000000 at 2:1 of 3
define internal void @f() {~ret void~}~define private noinline void @g() {~ret void~}~define noinline(1) void @h() {~ret void~}~define \"noinline\" void @i() {~ret void~}\tsymbols f g h i; types; function internal 0 at 2:1 of 0; function internal noinline 0 at 5:1 of 0; function noinline 0 at 8:1 of 0; function 0 at 11:1 of 0
define void @f() internal #0 {~ret void~}~attributes #0 = { nounwind noinline }~define void @g() #00 {~ret void~}~attributes #1 = { noinline }~attributes #1 = { }~define #1 void @h() {~ret void~}~define void @i() #1 {~ret void~}\tsymbols f g h i; types; function internal noinline 0 at 2:1 of 0; function 0 at 6:1 of 0; function 0 at 11:1 of 0; function noinline 0 at 14:1 of 0
define void @f() #3 {~ret void~}~attributes #3 = { \"noinline\" ([noinline]) }\tsymbols f; types; function noinline 0 at 2:1 of 0
@g = private constant %T undef, align 4, align 8~declare %U @h(%V, ptr @k)~%W = type { %T, %X }~@\"a b\" = global ptr @g\tsymbols g h a b; types T W X; global internal constant 8; global; declared 2:1
define void @f() {~call %T @llvm.lifetime.x(ptr %p, %U @k)~%q = call %V @g(ptr @h)~%r = call %W @g()~ret void~}\tsymbols f g h; types V W; function 0 q r at 2:1 of 2
declare void @a()~@b = global i8 0~define void @c() {~call void @d()~ret void~}\tsymbols a b c d; types; global; function 0 at 4:1 of 1; declared 1:1
target triple = \"a\"~target triple = \"b\"~target datalayout = \"c\"\tsymbols; types";

/// Whether a text may be cut before this byte, as the rows tell it.
fn cut(alloc: Global, text: &[u8], before: usize) -> Result<String, AllocError> {
    let place = before.saturating_add(1);
    let end = format!(in alloc; "1:{place} syntax")?;
    let found = match text.get(..before) {
        Some(front) => said(alloc, front)?,
        None => String::new(alloc),
    };
    if found.as_str() == end.as_str() {
        return format!(in alloc; "s");
    }
    if found.as_str() == "ok" {
        return format!(in alloc; "o");
    }
    Ok(found)
}

fn cuts(alloc: Global, text: &str) -> Result<String, AllocError> {
    let mut marks = String::new(alloc);
    for (i, byte) in text.as_bytes().iter().enumerate() {
        if *byte == b' ' {
            marks.push_str(&cut(alloc, text.as_bytes(), i)?)?;
        }
    }
    Ok(marks)
}

#[test]
fn forms_and_what_is_cut_from_them(rt: HostRuntime) -> Result<(), Fail> {
    for line in FORMS.lines() {
        let (text, wanted) = line.split_once('\t').ok_or("no tab")?;
        assert_eq!(rt;
            said(rt.alloc(), text.as_bytes())?.as_str(),
            "ok",
            "of {text}"
        );
        assert_eq!(rt; cuts(rt.alloc(), text)?.as_str(), wanted, "of {text}");
    }
    Ok(())
}

#[test]
fn faults(rt: HostRuntime) -> Result<(), Fail> {
    for line in FAULTS.lines() {
        let (text, wanted) = line.split_once('\t').ok_or("no tab")?;
        let bytes = lines_of(rt.alloc(), text)?;
        assert_eq!(rt; said(rt.alloc(), &bytes)?.as_str(), wanted, "of {text}");
    }
    Ok(())
}

/// Adds names, each after a space.
fn push_names(told: &mut String, names: &[Text]) -> Result<(), Fail> {
    for name in names {
        told.push_str(" ")?;
        told.push_str(std::str::from_utf8(name.as_slice()).map_err(|_| "no text")?)?;
    }
    Ok(())
}

fn push_global(alloc: Global, told: &mut String, global: &GlobalVar) -> Result<(), AllocError> {
    told.push_str("; global")?;
    if global.internal {
        told.push_str(" internal")?;
    }
    if global.constant {
        told.push_str(" constant")?;
    }
    if let Some(align) = global.align {
        told.push_str(&format!(in alloc; " {align}")?)?;
    }
    Ok(())
}

fn push_places(alloc: Global, told: &mut String, blocks: &[Block]) -> Result<(), AllocError> {
    told.push_str(" at")?;
    for block in blocks {
        told.push_str(&format!(in alloc; " {}:{}", block.place.line, block.place.column)?)?;
    }
    Ok(())
}

fn push_sizes(alloc: Global, told: &mut String, blocks: &[Block]) -> Result<(), AllocError> {
    told.push_str(" of")?;
    for block in blocks {
        told.push_str(&format!(in alloc; " {}", block.code.len())?)?;
    }
    Ok(())
}

fn push_function(alloc: Global, told: &mut String, func: &Func) -> Result<(), Fail> {
    told.push_str("; function")?;
    if func.internal {
        told.push_str(" internal")?;
    }
    if func.noinline {
        told.push_str(" noinline")?;
    }
    push_names(told, func.locals.as_slice())?;
    push_places(alloc, told, func.blocks.as_slice())?;
    push_sizes(alloc, told, func.blocks.as_slice())?;
    Ok(())
}

/// What a module holds: its names in order, and what the other tables do not show.
fn told(alloc: Global, module: &Module) -> Result<String, Fail> {
    let mut told = String::new(alloc);
    told.push_str("symbols")?;
    push_names(&mut told, module.symbols.as_slice())?;
    told.push_str("; types")?;
    push_names(&mut told, module.types.names.as_slice())?;
    for global in module.globals.as_slice() {
        push_global(alloc, &mut told, global)?;
    }
    for func in module.funcs.as_slice() {
        push_function(alloc, &mut told, func)?;
    }
    for declaration in module.declared.as_slice() {
        let place = declaration.place;
        told.push_str(&format!(in alloc; "; declared {}:{}", place.line, place.column)?)?;
    }
    Ok(told)
}

#[test]
fn names_places_and_marks(rt: HostRuntime) -> Result<(), Fail> {
    for line in NAMES.lines() {
        let (text, wanted) = line.split_once('\t').ok_or("no tab")?;
        let bytes = lines_of(rt.alloc(), text)?;
        let module = read(rt.alloc(), &bytes).map_err(|_| "not read")?;
        assert_eq!(rt; told(rt.alloc(), &module)?.as_str(), wanted, "of {text}");
    }
    Ok(())
}

#[test]
fn definitions_and_call_sites_at_their_limits(rt: HostRuntime) -> Result<(), Fail> {
    let alloc = rt.alloc();
    let define = "define void @f() { ret void }\n";
    let most = 4096;
    let text = repeated(alloc, "", define, most, "")?;
    assert_eq!(rt; said(alloc, text.as_bytes())?.as_str(), "ok");
    let text = repeated(alloc, "", define, most, "define x")?;
    assert_eq!(rt;
        said(alloc, text.as_bytes())?.as_str(),
        "4097:1 limit functions"
    );
    let first = "define void @f() {\n";
    let call = " call void @f()\n";
    let text = repeated(alloc, first, call, most, "ret void }")?;
    assert_eq!(rt; said(alloc, text.as_bytes())?.as_str(), "ok");
    let text = repeated(
        alloc,
        first,
        call,
        most,
        "%x = call i8 @g() %y = call i8 @f() ret void }",
    )?;
    assert_eq!(rt;
        said(alloc, text.as_bytes())?.as_str(),
        "4098:19 limit sites"
    );
    let text = repeated(alloc, first, call, most, "%y = call i8 @f() ret void } x")?;
    assert_eq!(rt; said(alloc, text.as_bytes())?.as_str(), "4098:30 syntax");
    Ok(())
}
