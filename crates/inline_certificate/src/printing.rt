ghost use Rattle.std.specs.Prelude.{◌≡◌, ◌++◌, [], ◌∷◌, IfOk, OnOk, flat_map, decimal};
ghost use Rattle.inline_certificate.specs.Text.{value_word, func_word, node_line, nodes_text, version_line, text_line};
ghost use Rattle.inline_certificate.specs.Certificates.{certificate_text, HasTree, IsCertificate, IsWord, IsValue, AreFuncs, IsNode, AreNodes};

use crate::certificates::Certificate;
use crate::nodes::CertNode;
use decisions::print_decisions;
use oi_base::{FuncId, NoMemory};
use std::alloc::Global;

/// The text of a certificate: the lines `certificate V` and `text N`, the map's lines, ascending, the line `tree`, and a
/// line for each node, in preorder: `L N`, `B SITE`, `S F F` with all functions of the list, or `C N`, where N is a number
/// or `none`. Numbers are decimal, and each line ends with a line feed.
pub fn print_certificate(alloc: Global, c: &Certificate) -> Result<Vec<u8>, NoMemory>
    ensures text { IfOk result (λ text. text.items ≡ certificate_text c.now) }
    ensures form { IfOk result (λ text. HasTree c.now → IsCertificate text.items c.now) }
    ensures words { OnOk result (IsWord c.now.text × AreNodes c.now.tree) }
{
    let mut text = head(alloc, c.version, c.text)?;
    let map = print_decisions(alloc, &c.map)?;
    text.extend_from_slice(map.as_slice())?;
    text.extend_from_slice(b"tree\n")?;
    push_nodes(alloc, &mut text, c.tree.nodes())?;
    Ok(text)
}

/// The lines of the version and the text.
fn head(alloc: Global, version: u8, text: u32) -> Result<Vec<u8>, NoMemory>
    ensures { IfOk result (λ head. head.items ≡ version_line version ++ text_line text) }
{
    let mut head = Vec::new(alloc);
    head.extend_from_slice(b"certificate ")?;
    push_number_line(alloc, &mut head, u32::from(version))?;
    head.extend_from_slice(b"text ")?;
    push_number_line(alloc, &mut head, text)?;
    Ok(head)
}

/// Appends a number and a line feed.
fn push_number_line(alloc: Global, text: &mut Vec<u8>, n: u32) -> Result<(), NoMemory>
    ensures { OnOk result (text.new.items ≡ text.old.items ++ (decimal n ++ 10 ∷ [])) }
{
    let line = format!(in alloc; "{n}\n")?;
    text.extend_from_slice(line.as_bytes())?;
    Ok(())
}

/// Appends a value and a line feed.
fn push_value_line(alloc: Global, text: &mut Vec<u8>, v: Option<u32>) -> Result<(), NoMemory>
    ensures words { IsValue v }
    ensures text { OnOk result (text.new.items ≡ text.old.items ++ (value_word v ++ 10 ∷ [])) }
{
    match v {
        None => {
            text.extend_from_slice(b"none\n")?;
            Ok(())
        }
        Some(n) => push_number_line(alloc, text, n),
    }
}

/// Appends a blank and a number for each function.
fn push_funcs(alloc: Global, text: &mut Vec<u8>, funcs: &[FuncId]) -> Result<(), NoMemory>
    ensures words { OnOk result (AreFuncs funcs.now) }
    ensures text { OnOk result (text.new.items ≡ text.old.items ++ flat_map func_word funcs.now) }
{
    for f in funcs {
        push_func(alloc, text, *f)?;
    }
    Ok(())
}

/// Appends a blank and the function's number.
fn push_func(alloc: Global, text: &mut Vec<u8>, f: FuncId) -> Result<(), NoMemory>
    ensures word { IsWord f.0 }
    ensures text { OnOk result (text.new.items ≡ text.old.items ++ func_word f) }
{
    let word = format!(in alloc; " {}", f.0)?;
    text.extend_from_slice(word.as_bytes())?;
    Ok(())
}

/// Appends the line of a node.
#[tactic(auto, unfolding(crate::specs::Text::node_line))]
fn push_node(alloc: Global, text: &mut Vec<u8>, node: &CertNode) -> Result<(), NoMemory>
    ensures words { OnOk result (IsNode node.now) }
    ensures text { OnOk result (text.new.items ≡ text.old.items ++ node_line node.now) }
{
    match node {
        CertNode::Leaf(v) => {
            text.extend_from_slice(b"L ")?;
            push_value_line(alloc, text, *v)
        }
        CertNode::Branch(s) => {
            text.extend_from_slice(b"B ")?;
            push_number_line(alloc, text, s.0)
        }
        CertNode::Split(funcs) => {
            text.extend_from_slice(b"S")?;
            push_funcs(alloc, text, funcs.get().as_slice())?;
            text.extend_from_slice(b"\n")?;
            Ok(())
        }
        CertNode::Cut(v) => {
            text.extend_from_slice(b"C ")?;
            push_value_line(alloc, text, *v)
        }
    }
}

/// Appends the lines of nodes.
fn push_nodes(alloc: Global, text: &mut Vec<u8>, nodes: &[CertNode]) -> Result<(), NoMemory>
    ensures words { OnOk result (AreNodes nodes.now) }
    ensures text { OnOk result (text.new.items ≡ text.old.items ++ nodes_text nodes.now) }
{
    for node in nodes {
        push_node(alloc, text, node)?;
    }
    Ok(())
}
