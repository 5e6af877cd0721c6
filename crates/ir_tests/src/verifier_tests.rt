use crate::texts::{lines_of, read};
use ir_assigned::Unassigned;
use ir_core::{Func, LocalId, Module, Verified};
use ir_verifier::{RuleFault, verify};
use oi_base::Place;
use std::alloc::Global;
use std::test::Fail;

/// A module in each line, with `~` at the ends of its own lines, and after a tab what the verifier says of it: the first broken
/// rule with its place, and for the rule of assignment also the register and a path as positions of blocks. First come the rules of
/// the module as a whole, then those of functions, then one function after another, and at last uses and definitions. In most rows
/// later rules are broken too, often at earlier places. Expected values are those of a plain model.
const MODULES: &str =
    "define i32 @main() {~  ret i32 1~}~target triple = \"riscv32-unknown-elf\"\tvalid
define i32 @main(i32 %p) {~  ret i32 1~}~target triple = \"x86_64\"\trule 1 1:1
define i32 @main() {~  ret i32 1~}~define void @f(void %p) {~  ret void~}~target triple = \"x86_64\"\trule 3 4:1
define i32 @main() {~  ret i32 1~}~define void @f() {~  ret void~}~define void @f() {~  ret void~}~target triple = \"x86_64\"\trule 2 7:1
define i32 @main() {~  ret i32 1~}~define void @f(void %p) {~  ret void~}~define void @f() {~  ret void~}~target triple = \"x86_64\"\trule 2 7:1
define i32 @main() {~e:~  ret i32 1~e:~  unreachable~}~target triple = \"x86_64\"\trule 8 1:1
@a = global i32 0, align 2~@b = global [1048577 x i8] zeroinitializer~@c = global [2 x i8] c\"abc\"~@d = global [16777217 x i8] zeroinitializer~define i32 @main() {~  ret i32 1~}~target triple = \"x86_64\"\trule 4 4:1
@a = global i32 0, align 2~@b = global [1048577 x i8] zeroinitializer~@c = global [2 x i8] c\"abc\"~define i32 @main() {~  ret i32 1~}~target triple = \"x86_64\"\trule 5 3:1
@a = global i32 0, align 2~@b = global [1048577 x i8] zeroinitializer~define i32 @main() {~  ret i32 1~}~target triple = \"x86_64\"\trule 6 2:1
@a = global i32 0, align 2~define i32 @main() {~  ret i32 1~}~target triple = \"x86_64\"\trule 7 1:1
define i32 @main() {~e:~  ret i32 1~e:~  unreachable~}\trule 9 4:1
define i32 @main() {~e:~  ret i8 1~e:~  unreachable~}\trule 9 4:1
define i32 @main() {~e:~  br label %q~e:~  unreachable~}\trule 9 4:1
define i32 @main() {~  ret i32 %q~}\trule 10 2:3
define i32 @main() {~  ret i8 1~a:~  br label %q~}\trule 10 4:3
define i32 @main() {~e:~  %x = add i32 1, 1~  %y = phi i32 [ 1, %e ]~  ret i32 1~a:~  br label %q~}\trule 10 7:3
define i32 @main() {~e:~  %x = add i8 poison, 1~  %y = phi i32 [ 1, %e ]~  ret i8 1~}\trule 11 4:3
define i32 @main() {~e:~  ret i8 1~a:~  br label %e~}\trule 12 5:3
define i32 @main() {~  %x = add i8 1, true~  ret i8 %x~}\trule 13 3:3
define i32 @main() {~  %x = add i8 true, 1~  ret i32 1~}\trule 14 2:3
define i32 @main() {~e:~  br label %a~a:~  %x = add i8 -1, 255~  %y = phi i32 [ 1, %e ]~  ret i32 1~}\trule 11 6:3
define i32 @main() {~  br label %a~a:~  %x = phi i32 [ 1, %a ]~  ret i32 %x~}\trule 16 4:3
define i32 @main() {~e:~  br label %a~a:~  %x = phi i32 [ 1, %e ], [ 5, %e ]~  %y = add i8 255, 5~  ret i32 %x~}\trule 16 5:3
define i32 @main() {~  %x = add i32 %y, 1~  br label %a~a:~  %y = phi i32 [ 1, %a ]~  ret i32 %x~}\trule 16 5:3
define i32 @main() {~e:~  %x = add i32 %y, 1~  br label %a~a:~  %y = phi i32 [ 1, %e ]~  %z = add i1 5, 1~  ret i32 %x~}\trule 14 7:3
define i32 @main() {~e:~  switch i8 %x, label %a [ i8 1, label %a i8 1, label %a ]~a:~  %y = phi i32 [ 1, %a ]~  %x = call i8 @f(i8 256)~  ret i32 1~}\trule 14 6:3
define i32 @main() {~e:~  switch i8 %x, label %a [ i8 1, label %a i8 1, label %a ]~a:~  %y = phi i32 [ 1, %a ]~  %x = call i8 @f(i8 1)~  ret i32 1~}\trule 15 6:3
define i32 @main() {~e:~  switch i8 %x, label %a [ i8 1, label %a i8 1, label %a ]~a:~  %y = phi i32 [ 1, %a ]~  %x = add i8 1, 1~  ret i32 1~}\trule 16 5:3
define i32 @main() {~e:~  switch i8 %x, label %a [ i8 1, label %a i8 1, label %a ]~a:~  %y = phi i32 [ 1, %e ]~  %x = add i8 1, 1~  ret i32 1~}\trule 17 3:3
define i32 @main() {~  %x = add i32 %y, 1~  %y = add i32 %x, 1~  ret i32 %y~}~define void @f() {~e:~  ret void~e:~  unreachable~}\trule 18 2:3 %y 0
define i32 @main() {~  ret i32 1~}~define void @f() {~e:~  ret void~e:~  unreachable~}\trule 9 7:1
define i32 @main() {~  ret i8 1~}~define void @f() {~e:~  ret void~e:~  unreachable~}\trule 13 2:3
define i32 @main() {~  br label %a~a:~  %x = phi i32 [ 1, %a ]~  ret i32 %x~}~define void @f() {~e:~  ret void~e:~  unreachable~}\trule 16 4:3
define i32 @main() {~e:~  switch i8 %x, label %a [ i8 1, label %a i8 2, label %a ]~a:~  %y = phi i32 [ 1, %e ]~  %x = add i8 1, 1~  ret i32 1~}\trule 18 3:3 %x 0
define i32 @main() {~  %x = add i32 %y, 1~  %y = add i32 %x, 1~  ret i32 %y~}\trule 18 2:3 %y 0
define i32 @main() {~  %x = add i32 %x, 1~  ret i32 %x~}\trule 18 2:3 %x 0
define i32 @main() {~e:~  %x = add i32 %y, 1~  br label %a~a:~  %y = phi i32 [ 1, %e ]~  ret i32 %x~}\trule 18 3:3 %y 0
define i32 @main() {~  ret i32 1~}~define void @f() {~  %x = add i32 %y, 1~  %y = add i32 %x, 1~  ret void~}\trule 18 5:3 %y 0
define i32 @main() {~  ret i32 1~}~define i32 @f(i1 %p) {~  br i1 %p, label %a, label %b~a:~  %x = add i32 1, 1~  br label %b~b:~  ret i32 %x~}\trule 18 10:3 %x 0 2
define i32 @main() {~  ret i32 1~}~define i32 @f(i1 %p) {~e:~  br i1 %p, label %a, label %b~a:~  %x = add i32 1, 1~  br label %b~b:~  %y = phi i32 [ 1, %e ], [ %x, %a ]~  ret i32 %y~}\tvalid
define i32 @main() {~  ret i32 1~}~define i32 @f(i1 %p) {~e:~  br i1 %p, label %a, label %b~a:~  %x = add i32 1, 1~  br label %b~b:~  %y = phi i32 [ %x, %e ], [ %x, %a ]~  ret i32 %y~}\trule 18 11:3 %x 0
define i32 @main() {~  ret i32 1~}~define i32 @f(i1 %p) {~  br i1 %p, label %a, label %b~a:~  %x = add i32 1, 1~  br label %c~b:~  br label %c~c:~  %y = add i32 %x, 1~  ret i32 %y~}\trule 18 12:3 %x 0 2 3
define i32 @main() {~  ret i32 1~}~define i32 @f(i1 %p) {~  br i1 %p, label %a, label %b~a:~  %x = add i32 1, 1~  br label %c~b:~  %y = add i32 1, 1~  br label %c~c:~  %z = phi i32 [ %x, %a ], [ %y, %b ]~  ret i32 %z~}\tvalid
define i32 @main() {~  ret i32 1~a:~  ret i32 %x~b:~  %x = add i32 1, 1~  br label %a~}\tvalid
define i32 @main() {~  br label %a~a:~  %x = add i32 1, 1~  br i1 %y, label %b, label %c~b:~  %y = add i1 1, 1~  br label %a~c:~  ret i32 %x~}\trule 18 5:3 %y 0 1
define i32 @main() {~e:~  br label %a~a:~  %x = phi i32 [ 1, %e ], [ %y, %b ]~  %y = add i32 1, 1~  br label %b~b:~  br i1 true, label %a, label %c~c:~  ret i32 %x~}\tvalid
define i32 @main() {~e:~  br label %a~a:~  %x = phi i32 [ 1, %e ], [ %z, %b ]~  %y = add i32 1, 1~  br i1 true, label %b, label %c~b:~  %z = add i32 1, 1~  br label %a~c:~  ret i32 %z~}\trule 18 12:3 %z 0 1 3";

/// What the verifier says of the module of a text.
fn told(alloc: Global, text: &[u8]) -> Result<String, Fail> {
    match read(alloc, text) {
        Ok(m) => verdict(alloc, text, verify(alloc, m)),
        Err(_) => Err("not read")?,
    }
}

fn verdict(
    alloc: Global,
    text: &[u8],
    verified: Result<Verified, RuleFault>,
) -> Result<String, Fail> {
    match verified {
        Ok(_) => Ok(String::from_str(alloc, "valid")?),
        Err(RuleFault::Rule(rule, place)) => rule_broken(alloc, rule, place),
        Err(RuleFault::Unassigned(fault)) => unassigned(alloc, text, &fault),
        Err(RuleFault::NoMemory) => Err("out of memory")?,
    }
}

fn rule_broken(alloc: Global, rule: u8, place: Place) -> Result<String, Fail> {
    let (line, column) = (place.line, place.column);
    Ok(format!(in alloc; "rule {rule} {line}:{column}")?)
}

fn unassigned(alloc: Global, text: &[u8], fault: &Unassigned) -> Result<String, Fail> {
    let mut said = rule_broken(alloc, 18, fault.place)?;
    said.push_str(" %")?;
    said.push_str(register_name(alloc, text, fault)?.as_str())?;
    for at in fault.path.as_slice() {
        said.push_str(&format!(in alloc; " {at}")?)?;
    }
    Ok(said)
}

/// The name of the register. The verifier took the module, so the text is read again.
fn register_name(alloc: Global, text: &[u8], fault: &Unassigned) -> Result<String, Fail> {
    match read(alloc, text) {
        Ok(m) => name_in_module(alloc, &m, fault),
        Err(_) => Err("not read")?,
    }
}

/// The name of the register in the last function that begins no later than the line of the fault.
fn name_in_module(alloc: Global, m: &Module, fault: &Unassigned) -> Result<String, Fail> {
    let mut name = String::new(alloc);
    for func in m.funcs.as_slice() {
        if func.place.line <= fault.place.line {
            name = String::from_str(alloc, name_in(func, fault.local))?;
        }
    }
    Ok(name)
}

fn name_in(f: &Func, local: LocalId) -> &str {
    match f.locals.as_slice().get(local.0 as usize) {
        Some(name) => std::str::from_utf8(name.as_slice()).unwrap_or(""),
        None => "",
    }
}

/// What the verifier says of the modules of a table, where it is not what is expected.
pub fn differences(alloc: Global, table: &str) -> Result<String, Fail> {
    let mut said = String::new(alloc);
    for line in table.lines() {
        let (text, wanted) = line.split_once('\t').ok_or("no tab")?;
        let bytes = lines_of(alloc, text)?;
        let found = told(alloc, &bytes)?;
        if found.as_str() != wanted {
            said.push_str(&format!(in alloc; "{found} of {text}\n")?)?;
        }
    }
    Ok(said)
}

#[test]
fn the_first_broken_rule(rt: HostRuntime) -> Result<(), Fail> {
    assert_eq!(rt; differences(rt.alloc(), MODULES)?.as_str(), "");
    Ok(())
}
